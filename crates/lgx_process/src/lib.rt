//! What a process is given: the words of its command line; and what it does with them, for programs whose words have a plan.
//!
//! What the system answered for the arguments is a value here, so a word that is lost, the program's own name taken for one, or
//! arguments taken for no text, is refused.
#![tactic(auto)]

mod program;
mod words;

pub use program::{Planned, process_over, process_over_input};
pub use words::words_of;
