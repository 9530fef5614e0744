//! The story that operator stations are told: the watched values right after each tick of a run. Definitions and their laws alone.
#![tactic(auto)]

mod laws;

pub use laws::stories_go_on;
