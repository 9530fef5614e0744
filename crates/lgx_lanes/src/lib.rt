//! Lanes of a script, each on a thread of its own, that take turns under one lock, whatever it is that records the run.
//!
//! A [`Shared`] keeps what is [`Recorded`] under a lock, and each [`Pass`] makes turns of its lane. Whatever turns the threads take,
//! the events are a journal that the lanes made (`IsUnderWay` of specs/Progress.antt).
#![tactic(auto)]

mod front;
mod input;
mod lanes;
mod locked_run;
mod pass;
mod recorded;
mod shared;
mod turn;

pub use input::Input;
pub use lanes::{Gate, run_lanes};
pub use pass::Pass;
pub use recorded::Recorded;
pub use shared::Shared;
pub use turn::Turn;
