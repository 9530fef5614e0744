//! Every run of a valid project is legal, and what the books of edits hold in it: laws over the definitions alone.
#![tactic(auto)]

mod books;
mod laws;

pub use books::books_are_merged;
pub use laws::{
    counts_are_the_machines, refusals_change_nothing, runs_are_legal, scans_keep_rungs,
};
