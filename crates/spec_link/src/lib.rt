//! Two controllers with a produced and a consumed tag: the link script, what it does, and what the consumed tag holds.
#![tactic(auto)]

mod laws;
mod script;

pub use laws::{consumed_words_are_whole, lines_are_reports};
pub use script::{LinkAnswer, LinkCode, LinkFault, LinkScript, LinkStep, MAX_DELIVERS, MAX_SENDS};
