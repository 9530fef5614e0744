//! A board of watched values, one snapshot for each tick, and the stations that read it with no lock and no wait.
#![tactic(auto)]

mod board;
mod published;
mod station;
mod story;

pub use board::Board;
pub use published::Published;
pub use spec_board::{MAX_SNAPSHOTS, MAX_VALUES, Snapshot, Values};
pub use station::Station;
pub use story::Story;
