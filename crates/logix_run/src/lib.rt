//! The program `logix`, over any files, any sink and any gate: which words of the command line are which plan, and that each
//! call follows the plan of its words. What a command does is in its own crate; what is said of every call, in `lgx_answer`.
#![tactic(auto)]

mod call;
mod command;
mod gate;
mod plain;

pub use call::{logix, program};
pub use gate::Open;
pub use lgx_answer::Status;
pub use lgx_shared::Gate;
pub use plain::{USAGE, logix_plain};
