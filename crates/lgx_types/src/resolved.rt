// The types of all members, found by their names, and what is wrong with names and members.
ghost use Rattle.std.specs.Prelude.{◌^◌, ◌≡◌, ◌<◌, [], length, map, position, IfOk, IfErr, OnOk};
ghost use Rattle.std.specs.List.{AllByRecursion as Each};
ghost use Rattle.spec_base.specs.Causes.{IsFaultOf};
ghost use Rattle.spec_base.specs.FirstCause.{first};
ghost use Rattle.spec_language.specs.declared.types.TypeCode.TheVariants.{Y6};
ghost use Rattle.spec_language.specs.TypeFaults.{of_structure};
ghost use Rattle.lgx_types.specs.declared.error.TypeError.TheVariants.{Fault};
ghost use Rattle.lgx_num.specs.Name.{same};
ghost use Rattle.spec_language.specs.Layout.{find, members_of, type_of};
ghost use Rattle.lgx_types.specs.Tables.{HasMembers, fault};
ghost use Rattle.lgx_types.specs.Sizing.{types_at};
ghost use Rattle.lgx_types.specs.Outlines.{first_wrong, faults_by, faults_in, name_faults, member_names, outline};

use crate::error::TypeError;
use crate::name_index::NameIndex;
use crate::structures::Structures;
use lgx_num::{Items, Name};
use spec_language::{Base, DataType, MemberDecl, TypeCode, TypeDecl, TypeFault};
use std::alloc::Global;
use std::marker::Model;

/// Declarations whose names and members are in order, with the type of each member. Contracts see the declarations.
#[derive(Drop)]
pub struct Resolved {
    structures: Structures,
    members: Vec<NameIndex>,
    outlines: Vec<Items<DataType>>,
}

impl Model for Resolved {
    ghost use Rattle.std.specs.Prelude.{List};
    ghost use Rattle.spec_language.specs.declared.types.TypeDecl.{TypeDecl};
    ghost use Rattle.lgx_types.specs.Outlines.{IsResolved};

    ghost Value = { List TypeDecl };

    ghost view = { λ r. r.structures };

    ghost invariant = { λ r. IsResolved r.structures r.members.items r.outlines.items };
}

impl Resolved {
    pub fn new(alloc: Global, decls: &[TypeDecl]) -> Result<Resolved, TypeError>
        requires few { length decls.now < 2 ^ 32 }
        requires members { Each HasMembers decls.now }
        ensures value { IfOk result (λ resolved. resolved ≡ decls.now) }
        ensures in_order { IfOk result (λ resolved. name_faults decls.now ≡ []) }
        ensures fault { IfErr result (λ error. IsFaultOf (first (name_faults decls.now)) (fault error)) }
    {
        let structures = Structures::new(alloc, decls)?;
        let (members, outlines) = all_members(alloc, &structures, decls)?;
        Ok(Resolved {
            structures,
            members,
            outlines,
        })
    }

    pub fn decls(&self) -> &[TypeDecl]
        ensures value { result.now ≡ self.now }
        ensures few { length self.now < 2 ^ 32 }
    {
        self.structures.decls()
    }

    /// The type of a name: a built-in one, or the first structure declared with it.
    pub fn find(&self, name: &Name) -> Option<Base>
        ensures { result ≡ find self.now name.now }
    {
        self.structures.find(name)
    }

    /// The number of the first member of a name in structure `i`, if there is that structure.
    pub fn member_number(&self, i: u32, name: &Name) -> Option<u32>
        ensures { result ≡ position (λ n. same n name.now) (member_names (members_of self.now i)) }
    {
        if (i as usize) < self.members.len() {
            let names = &self.members[i as usize];
            names.find(name.bytes())
        } else {
            None
        }
    }

    /// The types of the members of structure `i`.
    pub fn types_at(&self, i: u32) -> &[DataType]
        requires { i < length self.now }
        ensures value { result.now ≡ types_at self.now i }
        ensures few { length result.now < 2 ^ 32 }
    {
        self.outlines[i as usize].as_slice()
    }
}

fn fault_of(i: u32) -> TypeError
    ensures { result ≡ Fault (of_structure Y6 i) }
{
    TypeError::Fault(TypeFault {
        code: TypeCode::Y6,
        decl: i,
        member: None,
    })
}

/// The names and the types of the members of all structures.
fn all_members(
    alloc: Global,
    structures: &Structures,
    decls: &[TypeDecl],
) -> Result<(Vec<NameIndex>, Vec<Items<DataType>>), TypeError>
    requires few { length decls.now < 2 ^ 32 }
    requires members { Each HasMembers decls.now }
    requires same { structures.now ≡ decls.now }
    ensures members { IfOk result (λ r. r.0.items ≡ map (λ d. member_names d.members) decls.now) }
    ensures outlines { IfOk result (λ r. r.1.items ≡ map (λ d. outline decls.now d.members) decls.now) }
    ensures in_order { IfOk result (λ r. name_faults decls.now ≡ []) }
    ensures fault { IfErr result (λ error. IsFaultOf (first (name_faults decls.now)) (fault error)) }
{
    let mut members = Vec::with_capacity(alloc, decls.len())?;
    let mut outlines = Vec::with_capacity(alloc, decls.len())?;
    add_all_members(alloc, structures, decls, &mut members, &mut outlines)?;
    Ok((members, outlines))
}

/// Adds the names and the types of the members of each structure to none.
fn add_all_members(
    alloc: Global,
    structures: &Structures,
    decls: &[TypeDecl],
    members: &mut Vec<NameIndex>,
    outlines: &mut Vec<Items<DataType>>,
) -> Result<(), TypeError>
    requires few { length decls.now < 2 ^ 32 }
    requires members { Each HasMembers decls.now }
    requires same { structures.now ≡ decls.now }
    requires no_members { members.old.items ≡ [] }
    requires no_outlines { outlines.old.items ≡ [] }
    ensures members { OnOk result (members.new.items ≡ map (λ d. member_names d.members) decls.now) }
    ensures outlines { OnOk result (outlines.new.items ≡ map (λ d. outline decls.now d.members) decls.now) }
    ensures in_order { OnOk result (name_faults decls.now ≡ []) }
    ensures fault { IfErr result (λ error. IsFaultOf (first (name_faults decls.now)) (fault error)) }
{
    for i in 0..decls.len() {
        let decl = &decls[i];
        let number = i as u32;
        if structures.is_taken(i) {
            return Err(fault_of(number));
        }
        let (names, types) = members_of(alloc, structures, number, decl.members.as_slice())?;
        members.push(names)?;
        outlines.push(types)?;
    }
    Ok(())
}

/// The names and the types of the members of structure `i`.
fn members_of(
    alloc: Global,
    structures: &Structures,
    i: u32,
    members: &[MemberDecl],
) -> Result<(NameIndex, Items<DataType>), TypeError>
    requires { length members.now < 2 ^ 32 }
    ensures names { IfOk result (λ r. r.0 ≡ member_names members.now) }
    ensures types { IfOk result (λ r. r.1 ≡ outline structures.now members.now) }
    ensures in_order { IfOk result (λ r. faults_in structures.now i members.now ≡ []) }
    ensures fault { IfErr result (λ error. IsFaultOf (first (faults_in structures.now i members.now)) (fault error)) }
{
    let mut types = Vec::with_capacity(alloc, members.len())?;
    let mut names = NameIndex::new(alloc);
    add_members(structures, i, members, &mut names, &mut types)?;
    Ok((names, Items::of(types)))
}

/// Adds the names and the types of the members of structure `i` to none.
fn add_members(
    structures: &Structures,
    i: u32,
    members: &[MemberDecl],
    names: &mut NameIndex,
    types: &mut Vec<DataType>,
) -> Result<(), TypeError>
    requires few { length members.now < 2 ^ 32 }
    requires no_names { names.old ≡ [] }
    requires no_types { types.old.items ≡ [] }
    ensures names { OnOk result (names.new ≡ member_names members.now) }
    ensures types { OnOk result (types.new.items ≡ outline structures.now members.now) }
    ensures in_order { OnOk result (faults_in structures.now i members.now ≡ []) }
    ensures fault { IfErr result (λ error. IsFaultOf (first (faults_in structures.now i members.now)) (fault error)) }
{
    for k in 0..members.len() {
        let number = k as u32;
        let member = &members[k];
        let taken = names.find(member.name.bytes()).is_some();
        names.push(&member.name)?;
        let of = resolve(structures, member, taken, i, number)?;
        types.push(of)?;
    }
    Ok(())
}

/// The type of member `k` of structure `i`, by whether an earlier one has its name.
fn resolve(
    structures: &Structures,
    member: &MemberDecl,
    taken: bool,
    i: u32,
    k: u32,
) -> Result<DataType, TypeError>
    ensures value { IfOk result (λ of. of ≡ type_of structures.now member.now) }
    ensures in_order { IfOk result (λ of. faults_by taken structures.now i k member.now ≡ []) }
    ensures fault { IfErr result (λ error. IsFaultOf (first (faults_by taken structures.now i k member.now)) (fault error)) }
{
    let of = structures.find(&member.of);
    if let Some(code) = wrong_with(taken, of, member.dim) {
        return Err(TypeError::Fault(TypeFault {
            code,
            decl: i,
            member: Some(k),
        }));
    }
    Ok(DataType {
        base: of.unwrap_or(Base::Bool),
        dim: member.dim,
    })
}

/// What is wrong with a member: another has its name, its type isn't there, or it is an array of BOOLs of a length that
/// isn't a multiple of 32.
fn wrong_with(taken: bool, of: Option<Base>, dim: u32) -> Option<TypeCode>
    ensures { result ≡ first_wrong taken of dim }
{
    match of {
        _ if taken => Some(TypeCode::Y2),
        None => Some(TypeCode::Y1),
        Some(Base::Bool) if dim % 32 != 0 => Some(TypeCode::Y4),
        Some(_) => None,
    }
}
