//! The book of online edits (1756-PM008): the rungs of each program, base and merged, the accepted edits with their
//! owner, and the flat programs that run them; and [`Plant`], the project that a controller takes, whose rungs they begin with.
#![tactic(auto)]

mod book;
mod changes;
mod count;
mod draft;
mod edits;
mod error;
mod fresh;
mod judge;
mod merge;
mod owner;
mod passes;
mod pick;
mod plant;
mod read;
mod same;
mod same_texts;
mod shared;
mod texts;

pub use book::EditBook;
pub use count::left_by_rungs;
pub use draft::Against;
pub use edits::ProgramEdits;
pub use error::EditError;
pub use plant::{ConnDefs, Plant, PlantParts, Schedule, TaskDefs, TaskNames, Watch, Watches};
pub use texts::{ProgramText, ProgramTexts, RoutineText, RoutineTexts, SourceRungs};
