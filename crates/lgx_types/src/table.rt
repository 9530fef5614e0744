// The table of types.
ghost use Rattle.std.specs.Prelude.{◌^◌, ◌≡◌, ◌*◌, ◌<◌, ◌≤◌, None, [], length, map, take, IfSome, IfNone, IfErr, IfOk, OnOk};
ghost use Rattle.std.specs.List.{AllByRecursion as Each};
ghost use Rattle.spec_language.specs.declared.types.TypeCode.{TypeCode};
ghost use Rattle.spec_base.specs.Causes.{IsFaultOf};
ghost use Rattle.spec_base.specs.declared.limits.TheConstants.{MAX_ELEMENTS, MAX_STRUCTURE_BYTES};
ghost use Rattle.spec_language.specs.Layout.{find, member, size_of, sizes};
ghost use Rattle.spec_language.specs.LayoutLaws.{SoundTypes};
ghost use Rattle.spec_language.specs.TypeFaults.{of_structure, type_fault};
ghost use Rattle.lgx_types.specs.declared.error.TypeError.TheVariants.{Fault};
ghost use Rattle.lgx_types.specs.Tables.{HasSize, HasMembers, fault, IsLarge, IsSmall, IsTable, places_of};
ghost use Rattle.lgx_types.specs.Outlines.{name_faults};

use crate::built_in::{counter_member, timer_member};
use crate::cycle::first_cycle;
use crate::error::TypeError;
use crate::layout::{place_in, places};
use crate::resolved::Resolved;
use crate::size::size_in;
use crate::sizing::{Outcome, size_all};
use lgx_num::{Items, Memory, Name};
use spec_base::limits::MAX_STRUCTURE_BYTES;
use spec_language::{Base, DataType, Member, TypeCode, TypeDecl, TypeFault, sizes_are_settled};
use std::alloc::Global;
use std::marker::Model;

/// The table of the types: the built-in ones, and declared structures without a fault.
///
/// Contracts see the declarations, in order.
pub struct TypeTable {
    parts: Box<TableParts>,
}

impl Drop for TypeTable {
    fn drop(self) {
        let TypeTable { parts: _ } = self;
    }
}

/// The structures, their sizes, and the places of their members.
#[derive(Drop)]
struct TableParts {
    resolved: Resolved,
    sizes: Vec<u32>,
    places: Vec<Items<Member>>,
}

impl Model for TypeTable {
    ghost use Rattle.std.specs.Prelude.{List};
    ghost use Rattle.spec_language.specs.declared.types.TypeDecl.{TypeDecl};
    ghost use Rattle.lgx_types.specs.Tables.{IsTable};

    ghost Value = { List TypeDecl };

    ghost view = { λ t. t.parts.value.resolved };

    ghost invariant = { λ t. IsTable t.parts.value.resolved t.parts.value.sizes.items t.parts.value.places.items };
}

impl TypeTable {
    /// The table of these declarations, or the first fault of them, or out of memory.
    ///
    /// The faults of names and members come first, in order of declaration, then a structure that reaches itself, then
    /// one that is too large. It takes time in proportion to the declarations and members. Only if structures reach
    /// themselves, it takes this time once more for each structure before the first that does.
    pub fn build(alloc: Global, decls: &[TypeDecl]) -> Result<TypeTable, TypeError>
        requires few { length decls.now < 2 ^ 32 }
        requires members { Each HasMembers decls.now }
        ensures value { IfOk result (λ table. table ≡ decls.now) }
        ensures ok { OnOk result (type_fault decls.now ≡ None) }
        ensures fault { IfErr result (λ error. IsFaultOf (type_fault decls.now) (fault error)) }
    {
        let resolved = Resolved::new(alloc, decls)?;
        let (sizes, places) = laid_out(alloc, &resolved)?;
        let parts = TableParts {
            resolved,
            sizes,
            places,
        };
        Ok(TypeTable {
            parts: Box::new(alloc, parts)?,
        })
    }

    /// The type of a name: a built-in type, or the structure of that name; case doesn't matter.
    pub fn find(&self, name: &Name) -> Option<Base>
        ensures { result ≡ find self.now name.now }
    {
        self.parts.resolved.find(name)
    }

    /// The size of a type in bytes. An array of BOOLs takes a bit for each element.
    pub fn size_of(&self, of: DataType) -> u32
        requires { HasSize self.now of }
        ensures value { result ≡ size_of self.now of }
        ensures room { result ≤ MAX_STRUCTURE_BYTES * MAX_ELEMENTS }
    {
        size_in(&self.parts.sizes, of)
    }

    /// The member of a type by its name; case doesn't matter.
    ///
    /// It is None exactly where there is none: also for a structure that isn't in the table.
    pub fn member(&self, base: Base, name: &Name) -> Option<Member>
        ensures value { result ≡ member self.now base name.now }
        ensures room { IfSome result (λ m. m.at ≤ 8 * MAX_STRUCTURE_BYTES) }
    {
        match base {
            Base::Timer => timer_member(name.bytes()),
            Base::Counter => counter_member(name.bytes()),
            Base::User(i) => place_in(
                &self.parts.places,
                i,
                self.parts.resolved.member_number(i, name),
            ),
            _ => None,
        }
    }

    /// The declarations, in order.
    pub fn structures(&self) -> &[TypeDecl]
        ensures value { result.now ≡ self.now }
        ensures faultless { type_fault self.now ≡ None }
        ensures sound { SoundTypes self.now }
        ensures members { Each HasMembers self.now }
        ensures few { length self.now < 2 ^ 32 }
    {
        sizes_are_settled();
        self.parts.resolved.decls()
    }
}

fn fault_of(code: TypeCode, i: u32) -> TypeError
    ensures { result ≡ Fault (of_structure code i) }
{
    TypeError::Fault(TypeFault {
        code,
        decl: i,
        member: None,
    })
}

/// The sizes of the structures and the places of their members, or the first fault of the structures.
fn laid_out(alloc: Global, resolved: &Resolved) -> Result<(Vec<u32>, Vec<Items<Member>>), TypeError>
    requires few { length resolved.now < 2 ^ 32 }
    requires members { Each HasMembers resolved.now }
    requires in_order { name_faults resolved.now ≡ [] }
    ensures table { IfOk result (λ r. IsTable resolved.now r.0.items r.1.items) }
    ensures fault { IfErr result (λ error. IsFaultOf (type_fault resolved.now) (fault error)) }
{
    let sizes = sizes_of(alloc, resolved)?;
    let places = all_places(alloc, resolved, &sizes)?;
    Ok((sizes, places))
}

/// The sizes of the structures, or the first of them that reaches itself, or else that is too large.
fn sizes_of(alloc: Global, resolved: &Resolved) -> Result<Vec<u32>, TypeError>
    requires few { length resolved.now < 2 ^ 32 }
    requires members { Each HasMembers resolved.now }
    requires in_order { name_faults resolved.now ≡ [] }
    ensures sized { IfOk result (λ bytes. bytes.items ≡ sizes resolved.now) }
    ensures small { IfOk result (λ bytes. Each IsSmall bytes.items) }
    ensures faultless { OnOk result (type_fault resolved.now ≡ None) }
    ensures fault { IfErr result (λ error. IsFaultOf (type_fault resolved.now) (fault error)) }
{
    match size_all(alloc, resolved)? {
        Outcome::Cycle(cycle) => {
            let first = first_cycle(alloc, resolved, cycle)?;
            Err(fault_of(TypeCode::Y3, first))
        }
        Outcome::Sizes(sizes) => {
            if let Some(i) = too_large(&sizes) {
                return Err(fault_of(TypeCode::Y5, i));
            }
            Ok(sizes)
        }
    }
}

/// The first structure that is too large.
fn too_large(sizes: &[u32]) -> Option<u32>
    requires { length sizes.now < 2 ^ 32 }
    ensures some { IfSome result (λ i. IsLarge sizes.now i) }
    ensures none { IfNone result (Each IsSmall sizes.now) }
{
    for i in 0..sizes.len() {
        if sizes[i] > MAX_STRUCTURE_BYTES {
            return Some(i as u32);
        }
    }
    None
}

/// The places of the members of each structure, by the structures' sizes.
fn all_places(
    alloc: Global,
    resolved: &Resolved,
    bytes: &[u32],
) -> Result<Vec<Items<Member>>, Memory>
    requires sized { bytes.now ≡ sizes resolved.now }
    requires small { Each IsSmall bytes.now }
    requires sound { SoundTypes resolved.now }
    ensures { IfOk result (λ places. places.items ≡ places_of resolved.now) }
{
    let count = resolved.decls().len();
    let mut all = Vec::with_capacity(alloc, count)?;
    for i in 0..count {
        all.push(places(alloc, resolved.types_at(i as u32), bytes)?)?;
    }
    Ok(all)
}
