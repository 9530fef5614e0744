//! Journals and scripts: what a run is given and what it records, read with the first cause and written canonically.
#![tactic(auto)]

mod actions;
mod counts;
mod edits;
mod error;
mod journal;
mod laws;
mod lines;
mod read;
mod runs;
mod script;
mod words;
mod write;

pub use error::{JournalError, LineError};
pub use journal::Journal;
pub use laws::lines_have_one_reading;
pub use lines::{is_last, is_skipped, next_line};
pub use read::{JournalReader, read_journal};
pub use runs::{EventsLent, single};
pub use script::read_script;
pub use spec_machine::{Accept, Action, EditFault, Event, Mode, ModeFault, Reply, RungEdit, Text};
pub use spec_tables::{ConnFault, ForceFault};
pub use spec_text::{JournalCode, JournalFault, Script, Timed};
pub use words::{next_word, signed_of, split_word, unsigned_of};
pub use write::{push_event, write_event, write_journal};
