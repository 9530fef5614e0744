//! The cross reference of a project: for each tag the instructions that write it, and those that read it.
//!
//! The table of operands says which operands an instruction writes, and nothing is looked up by name: an operand's first bit lies
//! in one tag, which is found among the tags as they are laid. All instructions are walked once, and each is noted at the tags that
//! it writes and at those that it reads.
#![tactic(auto)]

mod bits;
mod note;
mod placed;
mod returns;
mod spans;
mod tag_set;
mod xref;

pub use spec_uses::Use;
pub use xref::{Uses, Xref, readers, writers};
