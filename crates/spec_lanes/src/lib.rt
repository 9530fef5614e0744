//! What turns of a script's lanes make of a journal, over the definitions alone: it stays partial, and with every action made and
//! the steps spent it is complete.
#![tactic(auto)]

mod laws;

pub use laws::{served_journals_go_on, whole_journals_are_complete, words_and_modes_are_held};
