// The declared structures, found by their names.
ghost use Rattle.std.specs.Prelude.{◌^◌, ◌≡◌, ◌<◌, [], length, nat_lt, ◌||◌, false, is_some, option_map, slice_get, Some, IfOk, OnOk};
ghost use Rattle.std.specs.Option.{option_or, option_map_or};
ghost use Rattle.spec_language.specs.declared.types.Base.TheVariants.{User};
ghost use Rattle.spec_language.specs.declared.types.TypeDecl.{TypeDecl};
ghost use Rattle.spec_language.specs.Layout.{find};
ghost use Rattle.spec_language.specs.TypeFaults.{name_taken};
ghost use Rattle.lgx_types.specs.Outlines.{names_of};

use crate::built_in::built_in;
use crate::name_index::NameIndex;
use lgx_num::{Items, Memory, Name};
use spec_language::{Base, MemberDecl, TypeDecl};
use std::alloc::Global;
use std::marker::Model;

/// The declarations, with an index of the structures' names. Contracts see the declarations, in order.
#[derive(Drop)]
pub struct Structures {
    decls: Items<TypeDecl>,
    names: NameIndex,
}

impl Model for Structures {
    ghost use Rattle.std.specs.Prelude.{◌≡◌, List};
    ghost use Rattle.spec_language.specs.declared.types.TypeDecl.{TypeDecl};
    ghost use Rattle.lgx_types.specs.Outlines.{names_of};

    ghost Value = { List TypeDecl };

    ghost view = { λ s. s.decls };

    ghost invariant = { λ s. s.names ≡ names_of s.decls };
}

impl Structures {
    pub fn new(alloc: Global, decls: &[TypeDecl]) -> Result<Structures, Memory>
        requires { length decls.now < 2 ^ 32 }
        ensures { IfOk result (λ structures. structures ≡ decls.now) }
    {
        let kept = copies(alloc, decls)?;
        let mut names = NameIndex::new(alloc);
        add_names(&mut names, decls)?;
        Ok(Structures { decls: kept, names })
    }

    /// The type of a name: a built-in one, or the first structure declared with it.
    pub fn find(&self, name: &Name) -> Option<Base>
        ensures { result ≡ find self.now name.now }
    {
        let text = name.bytes();
        or_structure(built_in(text), self.names.find(text))
    }

    /// Whether the name of structure `i` is built in, or that of an earlier structure.
    pub fn is_taken(&self, i: usize) -> bool
        requires { i < length self.now }
        ensures { (d : TypeDecl) → slice_get self.now i ≡ Some d → result ≡ name_taken self.now i d }
    {
        let name = self.decls.as_slice()[i].name.bytes();
        is_taken_by(built_in(name), self.names.find(name), i)
    }

    pub fn decls(&self) -> &[TypeDecl]
        ensures { result.now ≡ self.now }
    {
        self.decls.as_slice()
    }
}

fn or_structure(base: Option<Base>, structure: Option<u32>) -> Option<Base>
    ensures { result ≡ option_or base (option_map User structure) }
{
    match (base, structure) {
        (Some(base), _) => Some(base),
        (None, Some(i)) => Some(Base::User(i)),
        (None, None) => None,
    }
}

/// Whether a name is built in, or was first declared before `i`.
fn is_taken_by(base: Option<Base>, first: Option<u32>, i: usize) -> bool
    ensures { result ≡ (is_some base || option_map_or (λ p. nat_lt p i) first false) }
{
    match (base, first) {
        (Some(_), _) => true,
        (None, Some(first)) => (first as usize) < i,
        (None, None) => false,
    }
}

/// Adds the names of the declarations to an index that has none.
fn add_names(names: &mut NameIndex, decls: &[TypeDecl]) -> Result<(), Memory>
    requires few { length decls.now < 2 ^ 32 }
    requires none { names.old ≡ [] }
    ensures { OnOk result (names.new ≡ names_of decls.now) }
{
    for i in 0..decls.len() {
        names.push(&decls[i].name)?;
    }
    Ok(())
}

fn copies(alloc: Global, decls: &[TypeDecl]) -> Result<Items<TypeDecl>, Memory>
    ensures { IfOk result (λ copies. copies ≡ decls.now) }
{
    let mut copies = Vec::with_capacity(alloc, decls.len())?;
    for i in 0..decls.len() {
        copies.push(copied(alloc, &decls[i])?)?;
    }
    Ok(Items::of(copies))
}

fn copied(alloc: Global, decl: &TypeDecl) -> Result<TypeDecl, Memory>
    ensures { IfOk result (λ copy. copy ≡ decl.now) }
{
    let given = decl.members.as_slice();
    let mut members = Vec::with_capacity(alloc, given.len())?;
    for i in 0..given.len() {
        members.push(copied_member(&given[i]))?;
    }
    Ok(TypeDecl {
        name: decl.name.copied(),
        members: Items::of(members),
    })
}

fn copied_member(member: &MemberDecl) -> MemberDecl
    ensures { result ≡ member.now }
{
    MemberDecl {
        name: member.name.copied(),
        of: member.of.copied(),
        dim: member.dim,
    }
}
