//! What is below all other crates: the limits of a project and of its runs, and words that several rooms of definitions need, for
//! first causes and the pieces of a text.
#![tactic(auto)]

pub mod limits;
