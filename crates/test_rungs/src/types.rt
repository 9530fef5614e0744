// Structures that a row declares.
ghost use Rattle.std.specs.Prelude.{◌≡◌, true};
ghost use Rattle.std.specs.List.{AllByRecursion as Each};
ghost use Rattle.lgx_types.specs.Tables.{HasMembers};

use crate::errors::Refusal;
use crate::read::{name, number_or_0};
use lgx_num::Items;
use lgx_types::{TypeError, TypeTable};
use spec_language::{MemberDecl, TypeDecl};
use std::alloc::Global;

/// The structures of a text, with `;` between them: each is `NAME: MEMBER TYPE LENGTH, ..`, with no length where it
/// is no array.
pub fn structures_of(alloc: Global, text: &str) -> Result<Vec<TypeDecl>, Refusal> {
    let mut decls = Vec::new(alloc);
    for structure in text.split(';') {
        if !structure.trim().is_empty() {
            decls.push(structure_of(alloc, structure)?)?;
        }
    }
    Ok(decls)
}

fn structure_of(alloc: Global, text: &str) -> Result<TypeDecl, Refusal> {
    let (title, text) = text.split_once(':').ok_or(Refusal::Form)?;
    let name = name(&mut title.split_whitespace())?;
    let members = Items::of(members_of(alloc, text)?);
    Ok(TypeDecl { name, members })
}

fn members_of(alloc: Global, text: &str) -> Result<Vec<MemberDecl>, Refusal> {
    let mut members = Vec::new(alloc);
    for member in text.split(',') {
        members.push(member_of(member)?)?;
    }
    Ok(members)
}

fn member_of(text: &str) -> Result<MemberDecl, Refusal> {
    let mut words = text.split_whitespace();
    Ok(MemberDecl {
        name: name(&mut words)?,
        of: name(&mut words)?,
        dim: number_or_0(&mut words)?,
    })
}

/// The table of these structures, or their first fault. More than 1,000 of them, or of the members of one, have no
/// room.
pub fn table_of(alloc: Global, decls: &[TypeDecl]) -> Result<TypeTable, TypeError> {
    if decls.len() > 1000 || !have_members(decls) {
        return Err(TypeError::Memory);
    }
    TypeTable::build(alloc, decls)
}

/// Whether each structure has members, and not too many.
fn have_members(decls: &[TypeDecl]) -> bool
    ensures { result ≡ true → Each HasMembers decls.now }
{
    match decls {
        [] => true,
        [first, others @ ..] => has_members(first) && have_members(others),
    }
}

fn has_members(decl: &TypeDecl) -> bool
    ensures { result ≡ true → HasMembers decl.now }
{
    let count = decl.members.len();
    0 < count && count < 1000
}
