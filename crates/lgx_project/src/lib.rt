//! The project file: read whole, from what it describes to the project or its first refusal; and carried to the newest schema.
#![tactic(auto)]

mod count;
mod newest;
mod programs;
mod project;
mod routines;
mod tasks;

pub use lgx_json::ProjectError;
pub use newest::migrate;
pub use project::{Project, read_project};
pub use spec_project::{Inner, PathText, ProjectCode, ProjectFault};
