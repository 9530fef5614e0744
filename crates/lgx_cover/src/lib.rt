//! How often each instruction was executed by the run of a journal, and the program that reports it.
//!
//! A [`Coverage`] is a controller with a table for each version that a program began with: before each processor step the
//! controller is asked which instruction it will execute, and that is counted. The text gives the counts, instruction by
//! instruction, in the order of the code.
#![tactic(auto)]

mod call;
mod command;
mod coverage;
mod covered;
mod growth;
mod row;
mod table;
mod tables;
mod text_out;
mod version;

pub use call::{CoverProgram, USAGE, cover};
pub use command::cover_journal;
pub use coverage::Coverage;
pub use version::Version;
