//! The program `logix_live P`: reads the project of the file `P` as `replay` does, and then answers the lines of a journal that come
//! from a console, one by one.
#![tactic(auto)]

mod open;
mod process;

pub use open::{USAGE, live};
pub use process::program;
