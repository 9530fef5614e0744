//! The program `logix_explore P S Q`: does any journal of a script show what a question says is never to be?
//!
//! It reads a project, a script and a question, and says of all journals that the script may have on the project, with its actions
//! within the question's window, whether a line of the question ever holds (lgx_walker). What it says is one of three answers, and
//! the plan of its calls, specs/ExplorePlan, says of each what it means.
#![tactic(auto)]

mod call;
mod causes;
mod command;
mod counts;
mod explored;
mod judged;
mod progress;
mod text_out;

pub use call::{USAGE, explore, program};
pub use command::explore_script;
pub use progress::Lines;
