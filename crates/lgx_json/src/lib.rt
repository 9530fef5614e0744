//! The text of a project file read into what it describes: P1 it is no JSON text, and the first refusal of its shape, object by
//! object in the order of the fields (P2 to P5, P11).
#![tactic(auto)]

mod connections;
mod error;
mod fields;
mod list;
mod number;
mod programs;
mod tags;
mod tasks;
mod text;
mod top;
mod types;

pub use error::ProjectError;
pub use top::{read_described, read_top, read_value};
