//! What a project file is: the objects and fields that it may have, what it describes, which refusal is the first, and the
//! project that any other file gives.
#![tactic(auto)]

mod described;
mod fault;
pub mod limits;

pub use described::{
    Described, DescribedConnection, DescribedMeaning, DescribedProgram, DescribedRoutine,
    DescribedTag, DescribedTask, DescribedValue, TaskWord,
};
pub use fault::{Inner, PathText, ProjectCode, ProjectFault};
