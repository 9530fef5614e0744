//! The controller (1756-PM005): tasks, the ladder engine, I/O words, forces and online edits, one event at a time.
//!
//! A [`Controller`] represents a state of the machine of `spec_machine`, as `RepresentsController` of specs/Represents.antt says.
//! Each call answers what the machine's step answers, and the controller then represents the machine's next state; the readers show
//! the state.
#![tactic(auto)]

mod actions;
mod controller;
mod executing;
mod readers;
mod same;

pub use controller::Controller;
pub use lgx_steps::{Begins, Executed, Stretch};
pub use spec_machine::{Mark, Moment, Outcome, TickReport, What};
