//! The command `stations P J C`: the journal of one file is replayed on the project of another, while as many stations as are asked
//! for watch it, each on a thread of its own; the report is written, and then what each station gave first and last.
//!
//! It is no [`lgx_answer::FileCommand`]: what threads share must be known to be safe to share, and no method of a trait knows
//! that of the type parameters of its `impl`. So it reads its two files itself, in the order of its plan (specs/StationsPlan).
#![tactic(auto)]

mod command;
mod lines;
mod texts;
mod watched;

pub use command::stations;
pub use lgx_stations::{Gate, MAX_STATIONS};
