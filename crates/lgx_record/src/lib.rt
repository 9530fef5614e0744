//! The run of a project, and the recording of one.
//!
//! A [`Run`] goes on by the events that it takes, and puts the lines that the report has of them into a log that its caller
//! keeps. Whichever run it was, it is that run with these events more, as `Extends` of specs/Extends.antt says; it keeps nothing of
//! what came before. A [`Recording`] is a run with the journal of its events and the log of all their lines: its controller
//! represents the state that the journal leads to, and its log is that of the report, as `Records` of specs/Records.antt says.
#![tactic(auto)]

mod changes;
mod laws;
mod lines;
mod names;
mod recording;
mod run;

pub use laws::{law_of_events, law_of_faults, law_of_lines};
pub use lines::MAX_EVENT_LINES;
pub use names::names_of;
pub use recording::Recording;
pub use run::Run;
