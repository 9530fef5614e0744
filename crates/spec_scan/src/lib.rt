//! The scan of a program: the instruction table, the place of a scan in its rungs, a step of it, and the prescan (1756-PM008,
//! 1756-RM003).
#![tactic(auto)]

mod bound;
mod scan_laws;

pub use bound::{Arg, Bound, Copying, Effect};
pub use scan_laws::steps_keep_returns;
