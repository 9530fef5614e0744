// What a controller shows of the next processor step.
ghost use Rattle.std.specs.Prelude.{◌≡◌};
ghost use Rattle.spec_machine.specs.State.{State};
ghost use Rattle.lgx_steps.specs.Executing.{executed};
ghost use Rattle.lgx_core.specs.Represents.{RepresentsController};

use crate::controller::Controller;
use lgx_steps::Executed;

impl Controller {
    /// The instruction that the next processor step executes; None if that step is idle, begins a program, copies an element or
    /// leaves a routine.
    #[inline(always)]
    pub fn executing(&self) -> Option<Executed>
        ensures { (s : State) → RepresentsController self.now s → result ≡ executed s }
    {
        self.parts.executing()
    }
}
