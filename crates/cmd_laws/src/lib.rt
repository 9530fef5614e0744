//! The program `logix_laws P T`: does a trace keep the laws that the audit leaves out?
//!
//! It reads a project and a trace of a run of it, and says of each law of lgx_laws whether the trace keeps it: yes, or the first
//! event that breaks one. The plan of its calls, specs/LawsPlan, says what each answer means.
#![tactic(auto)]

mod call;
mod command;
mod laws;
mod lines;

pub use call::{LawsProgram, USAGE, judge};
pub use command::judge_trace;
pub use laws::traces_say_yes;
