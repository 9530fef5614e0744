//! The ladder machine: what each event does to the controller, and what is answered and reported (1756-PM005, 1756-PM008).
#![tactic(auto)]

mod answer;
mod event;
pub mod limits;
mod line;
mod reply;
mod scan_laws;
mod task_laws;
mod tick_laws;
mod trace_laws;

pub use answer::{Mark, Moment, Outcome, TickReport, What};
pub use event::{Accept, Action, Event, RungEdit, Text};
pub use line::Line;
pub use reply::{EditFault, Mode, ModeFault, Reply};
pub use scan_laws::{checked_rungs_are_executable, checked_rungs_know_tasks};
pub use task_laws::{releases_are_answered, tasks_stay_orderly};
pub use tick_laws::ticks_tell_their_faults;
pub use trace_laws::traces_keep_events;
