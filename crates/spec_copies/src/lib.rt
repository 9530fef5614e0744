//! Where scans are and what synchronous copies leave, in every run of a valid project, over the definitions alone.
#![tactic(auto)]

mod laws;

pub use laws::{copies_are_whole, scans_stand_in};
