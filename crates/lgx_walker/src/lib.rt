//! A controller on its way through a script's journals, and what is said of all of them.
//!
//! A [`Walker`] is a node of the exploration: a controller with the actions that led to it. [`tell`] explores all journals of a
//! script from the opening on, and makes the journal of what is shown.
#![tactic(auto)]

mod answer;
mod due;
mod late;
mod mark;
mod places;
mod told;
mod trail;
mod valued;
mod walker;
mod witness;

pub use answer::tell;
pub use due::law_of_scripts;
pub use told::Told;
pub use trail::{Placed, Trail};
pub use walker::Walker;
