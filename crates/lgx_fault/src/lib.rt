//! The log of the controller's faults: the last of all that were recorded, oldest first.
#![tactic(auto)]

mod fault_log;
mod laws;
mod same;

pub use fault_log::FaultLog;
pub use laws::law_of_notes;
pub use spec_tables::{Fault, Severity};
