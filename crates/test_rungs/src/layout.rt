// Rows of declared structures.
use crate::errors::Refusal;
use crate::types::{structures_of, table_of};
use lgx_types::{TypeError, TypeTable};
use spec_base::limits::MAX_ELEMENTS;
use spec_language::{Base, DataType, TypeFault};
use std::alloc::Global;
use test_rows::{Told, name_at, number_at, word_at};

/// `types | STRUCTURE; .. ? CALL; .. | ..`: what the calls answer at a table of these structures, or the first fault:
/// its code, the number of the structure and that of the member.
///
/// A structure is `NAME: MEMBER TYPE LENGTH, ..`, with no length where it is no array. `at TYPE MEMBER` answers a
/// member's first bit, `size TYPE LENGTH` a size in bytes, and `find NAME` a type.
pub fn say_types(
    alloc: Global,
    said: &mut Told,
    structures: &str,
    calls: &str,
) -> Result<(), Refusal> {
    let structures = structures_of(alloc, structures)?;
    match table_of(alloc, &structures) {
        Ok(table) => {
            run_all(said, &table, calls);
            Ok(())
        }
        Err(TypeError::Fault(fault)) => {
            say_fault(said, fault);
            Ok(())
        }
        Err(TypeError::Memory) => Err(Refusal::Memory),
    }
}

fn run_all(said: &mut Told, table: &TypeTable, calls: &str) {
    for call in calls.split(';') {
        if word_at(call, 0) == "count" {
            said.count(table.structures().len());
        } else {
            run(said, table, call);
        }
    }
}

/// The calls that name a type.
fn run(said: &mut Told, table: &TypeTable, call: &str) {
    let Some(name) = name_at(call, 1) else {
        said.malformed();
        return;
    };
    match (word_at(call, 0), table.find(&name)) {
        ("at", Some(base)) => say_member(said, table, call, base),
        ("size", Some(base)) => {
            let dim = number_at(said, call, 2);
            said.or_none(size_of(table, DataType { base, dim }));
        }
        ("find", Some(base)) => said.shown(&base),
        ("find", None) => said.word("none"),
        _ => said.malformed(),
    }
}

fn say_member(said: &mut Told, table: &TypeTable, call: &str, base: Base) {
    match name_at(call, 2) {
        Some(name) => said.or_none(table.member(base, &name).map(|member| member.at)),
        None => said.malformed(),
    }
}

fn size_of(table: &TypeTable, of: DataType) -> Option<u32> {
    let fits = of.dim <= MAX_ELEMENTS
        && match of.base {
            Base::User(i) => (i as usize) < table.structures().len(),
            Base::Bool => of.dim % 32 == 0,
            _ => true,
        };
    if fits { Some(table.size_of(of)) } else { None }
}

fn say_fault(said: &mut Told, fault: TypeFault) {
    let TypeFault { code, decl, member } = fault;
    said.shown(&code);
    said.number(i64::from(decl));
    said.or_none(member);
}
