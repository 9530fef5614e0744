//! What a project file declares, looked up and judged: its names, types, tags with their aliases, tasks with their programs.
#![tactic(auto)]

mod declare;
mod each;
mod judged;
mod names;
mod tags;
mod tasks;
mod types;

pub use each::{Judge, judge_each, judge_in};
pub use judged::judged_tags;
pub use names::all_names;
pub use tasks::list_programs;
