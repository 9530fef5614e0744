//! The cross reference: which instructions may write a tag and which read it, and that no other event changes the tag.
//! Definitions alone.
#![tactic(auto)]

mod uses;

pub use lgx_rung::Op;
pub use uses::Use;
