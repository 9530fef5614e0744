//! Copies: COP, CPS and FLL work out their places at once, and then copy an element a step (1756-RM003).
//!
//! What begins is `start_copy` of `spec_scan`, and what a step does `copy_element` and `after_element`.
#![tactic(auto)]

mod element;
mod start;

pub use element::next;
pub use spec_scan::Copying;
pub use start::start_copy;
