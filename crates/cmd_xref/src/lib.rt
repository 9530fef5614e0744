//! The command `xref P`: who writes and who reads each tag of a project.
#![tactic(auto)]

mod lines;
mod names;
mod xref_command;
mod xref_lines;

pub use xref_command::xref_project;
