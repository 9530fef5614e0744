//! Questions on all journals of a script: read with the first line that is refused and its first cause, and the first line
//! that holds of the values of the watched places.
#![tactic(auto)]

mod error;
mod laws;
mod line;
mod read;
mod shown;
mod tests;
mod words;

pub use error::QuestionError;
pub use laws::lines_are_seen;
pub use read::read_question;
pub use shown::first_line;
pub use spec_explore::{Comparison, Never, Operand, Question, QuestionCode, QuestionFault, Test};
