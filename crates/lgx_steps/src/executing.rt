// Which instruction the next processor step executes.
ghost use Rattle.std.specs.Prelude.{◌≡◌, ℕ, List};
ghost use Rattle.spec_machine.specs.State.{State, Progress as MachineProgress};
ghost use Rattle.lgx_edit.specs.EditsView.{holds};
ghost use Rattle.lgx_steps.specs.Represents.{RepresentsParts, RepresentsTask, IsLive};
ghost use Rattle.lgx_steps.specs.Executing.{executed_by, executed};

use crate::parts::{ControllerParts, Progress};
use lgx_edit::EditBook;
use lgx_engine::Execution;

/// An instruction that is executed, and the number of its program.
#[derive(Clone, Copy)]
pub struct Executed {
    pub program: u32,
    pub execution: Execution,
}

/// The instruction that the next step of the scan of this progress executes; None if it has no scan.
#[inline(always)]
fn executed_by(book: &EditBook, progress: &Progress) -> Option<Executed>
    requires represents { (len tasks : ℕ) × (list : List ℕ) × (p : MachineProgress) × RepresentsTask (holds book.now) len tasks list progress.now p }
    ensures { (len tasks : ℕ) (list : List ℕ) (p : MachineProgress) → RepresentsTask (holds book.now) len tasks list progress.now p → result ≡ executed_by p.scan }
{
    match progress.scan {
        Some(scan) => match book.held(scan.program) {
            Some(flat) => match progress.position.executing(flat) {
                Some(execution) => Some(Executed {
                    program: scan.program,
                    execution,
                }),
                None => None,
            },
            None => unreachable!(),
        },
        None => None,
    }
}

impl ControllerParts {
    /// The instruction that the next processor step executes; None if that step is idle, begins a program, copies an element or
    /// leaves a routine.
    #[inline(always)]
    pub fn executing(&self) -> Option<Executed>
        requires { IsLive self.now }
        ensures { (n : ℕ) (s : State) → RepresentsParts n self.now s → result ≡ executed s }
    {
        match self.table.chosen() {
            Some(t) => executed_by(&self.book, &self.progress[t as usize]),
            None => None,
        }
    }
}
