//! The command `link A B L`: the controllers of two projects run as a link script says, with a produced and a consumed tag between
//! them, and both reports are written with the answers of the link.
#![tactic(auto)]

mod causes;
mod command;
mod judged;
mod lines;

pub use command::link_projects;
