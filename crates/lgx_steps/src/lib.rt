//! The steps of a controller over its parts (1756-PM005): what each event does to the table of tasks, the scans in progress,
//! the image, the books of edits, the forces and the log of faults.
//!
//! A [`ControllerParts`] has no invariant of its own. The contract of each step speaks of the states of the machine that the parts
//! represent, as `RepresentsParts` of specs/Represents.antt says: whichever of them it was, the answer is the machine's, and the
//! parts represent the machine's next state.
#![tactic(auto)]

mod act;
mod again;
mod begins;
mod edits;
mod effects;
mod executing;
mod forces;
mod fresh;
mod modes;
mod parts;
mod release;
mod same;
mod scans;
mod step;
mod stretch;
mod tick;
mod words;

pub use begins::{Begins, MAX_BEGINS};
pub use executing::Executed;
pub use parts::{ControllerParts, Progress, Released, Scan};
pub use stretch::Stretch;
