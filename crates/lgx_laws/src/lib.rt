//! The laws of a trace beyond those of the audit, judged in one pass.
#![tactic(auto)]

mod broken;
mod copies;
mod edits;
mod error;
mod laws;
mod modes;
mod one_pass;
mod regions;
mod scans;
mod since;
mod starts;
mod ticks;
mod triggers;

pub use error::{Law, LawError};
pub use laws::{breaches_are_told, runs_keep_laws};
pub use one_pass::judge;
