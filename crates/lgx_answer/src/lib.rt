//! What a command is, and what each call of one answers: a plan, the driver that follows it, and the only function that
//! puts to a sink.
//!
//! A command reads files one after another, each by what was read before, and then it says a verdict with a text. That is
//! its plan. A [`FileCommand`] is a command under way: it names the file that it reads next and judges its bytes. What a call
//! answers is defined once, by the plan alone, for all commands; so a new command brings a plan of its own, its function `judge`,
//! and nothing else.
#![tactic(auto)]

mod driver;
mod file_command;
mod lines;
mod process;
mod puts;
mod status;

pub use driver::{after_read, answer, say, write};
pub use file_command::{FileCommand, Step};
pub use lines::{Lines, NoLines, line_length};
pub use process::exit_number;
pub use status::{Status, Verdict};
