//! The commands `trace P J`, which writes what is seen of a journal's run, and `audit P T`: whether a trace keeps the laws of the
//! schedule.
#![tactic(auto)]

mod audit_command;
mod laws;
mod lines;
mod next;
mod place;
mod seen;
mod table;
mod trace_command;
mod trace_lines;

pub use audit_command::audit_trace;
pub use laws::traces_are_legal;
pub use lines::{trace_cause_line, yes_line};
pub use table::table_of;
pub use trace_command::trace_journal;
