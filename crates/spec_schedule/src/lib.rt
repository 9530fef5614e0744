//! The legal schedule of tasks, defined by counting along a trace, and the journals that a run of a script may write.
#![tactic(auto)]

mod trace;
mod turn_laws;

pub use trace::{AuditTask, StepFault, Table, TraceAnswer, TraceEvent, TraceMark, Verb};
pub use turn_laws::turns_are_decided;
