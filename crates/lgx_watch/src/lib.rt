//! The log of a run, the texts of its lines, and the watched places of each word of the image.
//!
//! A [`Log`] has room for `MAX_REPORT_LINES` lines from the start and counts the others, so it takes no memory while a run goes on.
//! A text is made of a line when it is asked for, with the names of a project. A [`WatchIndex`] says which watched places have a
//! byte in a word or a grain, so that only those are compared whose bytes changed.
#![tactic(auto)]

mod answers;
mod bits;
mod codes;
mod digits;
mod heads;
mod laws;
mod log;
mod names;
mod texts;
mod watch_index;
mod watch_set;

pub use answers::{push_check_fault, push_text_fault};
pub use bits::MAX_WATCHES;
pub use digits::{push_count, push_word};
pub use laws::{law_of_events, law_of_pushes, law_of_watches};
pub use log::Log;
pub use names::Names;
pub use spec_machine::{EditFault, Line, Mode, ModeFault, Reply};
pub use spec_tables::{ConnFault, Fault, ForceFault, Severity};
pub use texts::{end_text, line_text, push_line_text};
pub use watch_index::WatchIndex;
pub use watch_set::WatchSet;
