//! Journals of a script described by how they grow, and what a question asks of all of them.
#![tactic(auto)]

mod laws;
mod question;

pub use laws::{journals_complete, journals_grow, layers_tell, witnesses_tell};
pub use question::{Comparison, Never, Operand, Question, QuestionCode, QuestionFault, Test};
