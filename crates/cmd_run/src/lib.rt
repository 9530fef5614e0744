//! The command `run P S`: the script of one file runs on the project of another, each lane on a thread of its own; the journal of
//! the run is written, and then its report.
//!
//! It is no [`lgx_answer::FileCommand`]: what threads share must be known to be safe to share, and no method of a trait knows
//! that of the type parameters of its `impl`. So it reads its two files itself, in the order of its plan (specs/RunPlan).
#![tactic(auto)]

mod command;
mod kept;
mod lanes;
mod lines;

pub use command::run;
pub use lgx_shared::Gate;
