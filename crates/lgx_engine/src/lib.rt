//! The engine: one step of a program scan over flat code (1756-PM008, 1756-RM003).
//!
//! A step copies an element, leaves a routine or executes an instruction, takes no memory, and touches what it needs. It is
//! `advance` of `spec_scan`, if code and position represent rungs and a position in them as `IsRunOf` says. [`advance_on`] makes
//! many of them at once, and [`advance_over`] goes over the ends of scans.
#![tactic(auto)]

mod branches;
mod comparing;
mod computing;
mod frame;
mod frames;
mod handing;
mod innermost;
mod known;
mod left;
mod moves;
mod operand;
mod over;
mod place;
mod row;
mod run;
mod same;
mod scan;
mod settling;
mod short;

pub use frame::Position;
pub use over::{BeginSteps, MAX_BEGINS, advance_over};
pub use place::Execution;
pub use run::{CodeRun, advance_on};
pub use scan::advance;
pub use spec_scan::Effect;
