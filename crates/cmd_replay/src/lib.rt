//! The commands `replay P J`, which writes the report of a journal that is run on a project, and `gen N`, which runs a journal that
//! is made from a number on a project that is, and writes how many lines the report has, and its end line.
#![tactic(auto)]

mod counts;
mod generated;
mod journal_run;
mod replay;
mod report_lines;

pub use generated::generate;
pub use replay::replay_journal;
