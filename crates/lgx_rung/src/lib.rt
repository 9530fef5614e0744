//! Ladder rungs (1756-PM008): mnemonics, rungs as lists of elements, and the neutral text that spells them.
//!
//! A rung is a list of elements and a semicolon; an element is an instruction or a fork, a branch of legs between brackets.
//! How deep forks nest, where blanks may be and which fault comes first is our own profile.
#![tactic(auto)]

mod args;
mod fault;
mod ins;
mod kinds;
mod op;
mod operands;
mod rung;
mod text;
mod texts;

pub use args::Args;
pub use fault::{CheckCode, CheckFault, TextCode, TextFault};
pub use ins::Ins;
pub use kinds::{OperandKinds, as_count};
pub use op::{Op, mnemonics_are_read_back};
pub use operands::{Family, OperandKind};
pub use rung::{Element, Legs, OpenFork, SourceRung};
pub use text::{
    canonical_text_spells_its_rung, text_spells_one_rung, texts_are_read,
    tokens_are_runs_and_single_bytes, worked_texts,
};
pub use texts::{Operands, Texts};
