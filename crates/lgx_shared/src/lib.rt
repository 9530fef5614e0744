//! The recorder of a run, and the lanes of a script, each on a thread of its own, that share it under one lock.
//!
//! A [`Recorder`] records a run: of a journal, one event after another, or of a script, one turn of a lane after another. A
//! [`Shared`] is made of one and keeps its run under a lock, and each [`Pass`] makes turns of its lane. Whatever turns the threads
//! take, the journal is partial for the counts of the lanes' actions (`Follows` of specs/Follows.antt).
//!
//! The programs make recorders for scripts alone. [`Recorder::of_journal`] and [`Recorder::apply`] are for callers of this library
//! that have a journal's events and want its record and its report from one value; a program that replays a journal takes a run
//! of `lgx_record` with a log.
#![tactic(auto)]

mod lanes;
mod plan;
mod recorder;
mod recorder_of;
mod script_run;
mod serving;
mod shared;

pub use lanes::run_lanes;
pub use lgx_lanes::{Gate, Input, Pass, Turn};
pub use recorder::Recorder;
pub use shared::Shared;
