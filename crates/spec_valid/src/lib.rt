//! The project that a file gives, where nothing of it is refused, is a valid one, and what a text names begins at a multiple of its
//! size, where numbers alone are subscripts: laws over the definitions alone.
#![tactic(auto)]

mod aligned;
mod laws;

pub use aligned::fixed_is_aligned;
pub use laws::accepted_is_valid;
