//! Forces of I/O words: which bits of which words are held at which values, and whether forces are enabled.
#![tactic(auto)]

mod same;
mod table;

pub use spec_tables::ForceFault;
pub use table::ForceTable;
