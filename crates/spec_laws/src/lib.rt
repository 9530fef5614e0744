//! What each run of a valid project keeps: the laws of the schedule and what a controller owes to its tasks, over the definitions
//! alone.
#![tactic(auto)]

mod laws;

pub use laws::runs_are_lawful;
