//! Texts: journals and scripts as they are read and written, and the lines of a report.
#![tactic(auto)]

mod journal_laws;
mod script;

pub use journal_laws::{journals_are_within_limits, runs_expand, scripts_are_kept};
pub use script::{EventRun, JournalCode, JournalFault, Script, Timed};
