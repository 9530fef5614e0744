//! The table of tasks: which are up, which one is chosen, and how they come up, take turns and go down (1756-PM005).
#![tactic(auto)]

mod active;
mod expiry;
mod queue;
mod quiet;
mod releases;
mod same;
mod table;

pub use active::ActiveTask;
pub use spec_tables::{Release, TaskDef, TaskKind};
pub use table::TaskTable;
