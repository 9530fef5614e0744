//! A replay that publishes to a board after each tick, while operator stations read the board on threads of their own.
#![tactic(auto)]

mod gated;
mod input;
mod reported;
mod stations;
mod telling;

pub use gated::{READS, Readings};
pub use input::JournalInput;
pub use lgx_lanes::Gate;
pub use reported::Reported;
pub use stations::{MAX_STATIONS, watch_journal};
