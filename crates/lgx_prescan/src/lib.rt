//! The prescan of a program: what the change to Run does to its tags (profile, after 1756-PM008).
//!
//! It goes over the instructions of each routine that the main routine reaches by JSR, in the order of the text, whatever
//! the conditions before them would be. What it does for each is `prescan_one` of `spec_scan`.
#![tactic(auto)]

mod instruction;
mod program;

pub use program::prescan;
