//! The layout of declared structures: which declarations are refused, and where the members of a structure lie.
//!
//! [`TypeTable::build`] takes the declarations and answers their first fault, or a table that knows each type by its
//! name, each type's size in bytes, and each member by its first bit. The layout is our own rule (profile). [`NameIndex`] finds the
//! first of the names that are the same in any case, in a time that doesn't grow with their number.
#![tactic(auto)]

mod built_in;
mod cycle;
mod error;
mod layout;
mod name_index;
mod resolved;
mod size;
mod sizing;
mod structures;
mod table;

pub use error::TypeError;
pub use name_index::NameIndex;
pub use spec_language::{Base, DataType, Member, MemberDecl, TypeCode, TypeDecl, TypeFault};
pub use table::TypeTable;
