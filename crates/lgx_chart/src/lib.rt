//! Pictures of a report: what its lines say, read from its text alone; a program that draws it as any picture; and its
//! wave file.
//!
//! A report is read without its project, so tasks, programs and watched places are the names in its lines. Which watched places
//! are BOOLs, which never change, and what they have before the first line, is given by the words of the call.
#![tactic(auto)]

mod asked;
mod chart;
mod clock;
mod command;
mod entry;
mod error;
mod forms;
mod picture;
mod places;
mod text_out;
mod vcd;
mod vcd_texts;
mod wave_file;
mod words;

pub use asked::{Asked, MAX_WIDTH, MIN_WIDTH, View, WatchedPlace, asked_of};
pub use chart::read_chart;
pub use clock::{Clock, time_of};
pub use command::draw;
pub use entry::{Chart, End, Entry, Note};
pub use error::{ChartCode, ChartError, ChartFault};
pub use lgx_answer::Status;
pub use picture::Picture;
pub use places::places_of;
pub use text_out::{push, push_count, push_joined};
pub use vcd::vcd_text;
pub use wave_file::{USAGE, WaveProgram, wave};
pub use words::owned;
