//! Texts made from a number, our own profile: a large project and a journal that runs on it, the same for the same number.
//!
//! All that isn't fixed is drawn: a linear congruential generator has a state of 32 bits, which is the number at first, and each
//! draw steps it and takes its upper half. Both texts draw from the number anew.
#![tactic(auto)]

mod draws;
mod journal;
mod pieces;
mod project;
mod rungs;
mod sizes;

pub use journal::gen_journal;
pub use project::gen_project;
