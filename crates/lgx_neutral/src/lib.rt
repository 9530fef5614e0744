//! Neutral text (1756-PM008): a rung's text read into the rung, and the rung written as its one canonical text.
//!
//! [`read_rung`] reads the bytes of a text once, in time that grows with their number alone: the forks that are open wait
//! in a stack, at most [`spec_base::limits::MAX_FORKS`] of them, and nothing recurses on the text's length. Which texts spell a
//! rung, which fault of any other comes first and where it lies are definitions of `lgx_rung`.
#![tactic(auto)]

mod bytes;
mod fault;
mod forks;
mod lexer;
mod mnemonic;
mod read;
mod reader;
mod write;

pub use fault::RungError;
pub use read::read_rung;
pub use write::write_rung;
