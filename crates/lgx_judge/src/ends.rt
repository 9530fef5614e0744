// What the end line of a report says of the controller.
ghost use Rattle.std.specs.Prelude.{◌≡◌, List};
ghost use Rattle.spec_machine.specs.declared.event.Event.{Event};
ghost use Rattle.spec_machine.specs.Events.{steps_of};
ghost use Rattle.spec_machine.specs.Project.{Project};
ghost use Rattle.lgx_core.specs.Represents.{StandsFor};
ghost use Rattle.lgx_judge.specs.ReportLines.{end_of};

use lgx_core::Controller;
use lgx_watch::Mode;

/// What the end line of a report says besides the number of lost lines.
#[derive(Clone, Copy)]
pub struct End {
    pub tick: u32,
    /// The number of processor steps.
    pub steps: u32,
    pub mode: Mode,
}

/// What the end line says of a run of `steps` processor steps, after which the controller is as it is now.
pub fn end_of(controller: &Controller, steps: u32) -> End
    ensures { (project : Project) (events : List Event) → StandsFor project events controller.now → steps ≡ steps_of events → result ≡ end_of project events }
{
    End {
        tick: controller.now(),
        steps,
        mode: controller.mode(),
    }
}
