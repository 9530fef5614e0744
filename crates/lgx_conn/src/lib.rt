//! The connections of controller tags to modules: where their I/O words lie, and which task each triggers.
#![tactic(auto)]

mod conns;
mod same;

pub use conns::Conns;
pub use spec_tables::{ConnDef, ConnFault, Slot};
