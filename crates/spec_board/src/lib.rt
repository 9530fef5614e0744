//! What operator stations see: the watched values right after a tick, and lists of them that only go on.
#![tactic(auto)]

mod snapshot;

pub use snapshot::{MAX_SNAPSHOTS, MAX_VALUES, Snapshot, Values};
