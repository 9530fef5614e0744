//! What connections, initial values and watched texts of a project file name, and the image at the start.
#![tactic(auto)]

mod connections;
mod named;
mod places;
mod tasks;
mod whole;

pub use connections::read_connections;
pub use places::{Places, read_places};
