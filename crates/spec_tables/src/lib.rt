//! The tables of a controller: its tasks, the connections of its I/O words, the forces, and what it records as faults
//! (1756-PM005).
#![tactic(auto)]

mod conn;
mod fault;
mod force;
mod task;

pub use conn::{ConnDef, ConnFault, Slot};
pub use fault::{
    BAD_SUBSCRIPT, BAD_TIMER, EVENT_OVERLAP, Fault, MISSING_PARAMETERS, OVERFLOW, PERIODIC_OVERLAP,
    PROGRAM_FAULT, Severity, TASK_FAULT, TOO_DEEP, WATCHDOG,
};
pub use force::ForceFault;
pub use task::{Release, TaskDef, TaskKind};
