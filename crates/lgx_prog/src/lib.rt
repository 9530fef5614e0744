//! Checked rungs, and the flat code that a program runs as (1756-PM008).
//!
//! A rung is a tree of instructions and forks, as an engineer reads it. A routine runs as one list of code: its instructions
//! in the order of the text, and between them where a rung starts and where a branch starts, goes on to its next leg, and
//! ends. Which code stands for which rungs is `IsFlat`, and which program for which rungs is `IsFlatProgram`. Beside the code is
//! kept for each piece what its instruction does, in short, and what comes before the next one (`AreQuick`). A rung's code can be made
//! once, and shared by all routines that have the rung (`IsCodeOf`, `Joins`).
#![tactic(auto)]

mod code;
mod emit;
mod joining;
mod prepared;
mod program;
mod quick;
mod reach;
mod rung;
mod same;
mod short;
mod trees;

pub use code::{Code, FlatRoutine};
pub use joining::{Joining, RungCode, flatten};
pub use lgx_rung::Ins;
pub use prepared::Prepared;
pub use program::FlatProgram;
pub use quick::{After, Quick};
pub use rung::{Legs, Node, Rung, Rungs};
pub use short::{Does, Source};
pub use trees::{rungs_again, same_rung, same_rungs};
