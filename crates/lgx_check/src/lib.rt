//! Checking a routine's rungs: their operands resolved against the declared tags, or the first fault of an instruction
//! (1756-PM008, 1756-RM003).
#![tactic(auto)]

mod checker;
mod error;
mod label;
mod name;
mod number;
mod operand;
mod place;
mod plain;
mod routine;
mod routine_checker;
mod scope;
mod spot;
mod walk;

pub use error::CheckError;
pub use plain::is_plain;
pub use routine::check_routine;
pub use routine_checker::RoutineChecker;
pub use scope::CheckScope;
