//! The audit of a trace: its text, and the laws of the schedule judged in one pass.
#![tactic(auto)]

mod counts;
mod error;
mod laws;
mod numbers;
mod one_pass;
mod priority;
mod read;
mod watch;
mod words;
mod write;

pub use counts::{Count, count_event, counted, no_counts, stepping, stops};
pub use error::{AuditError, TraceCode, TraceError, TraceFault};
pub use laws::{breaches_are_told, one_pass_decides, runs_pass_audit, words_are_read_back};
use lgx_num::Items;
pub use one_pass::audit;
pub use read::read_trace;
pub use spec_schedule::{AuditTask, StepFault, Table, TraceAnswer, TraceEvent, TraceMark, Verb};
pub use write::{push_line, write_line};

/// The tasks of a table.
pub type AuditTasks = Items<AuditTask>;

/// A trace; contracts see it as the list of its events.
pub type Trace = Items<TraceEvent>;
