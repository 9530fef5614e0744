// Valid projects. Each function is a law: it does nothing, and its contract is what is shown.
ghost use Rattle.spec_machine.specs.ValidProject.{IsValidProject};
ghost use Rattle.test_cases.specs.TaskRuns.{inhibited_event};
ghost use Rattle.test_cases.specs.ProjectCases.{continuous_trigger, short_image, unscheduled};

use spec_machine::checked_rungs_are_executable;

/// A project with two tasks, a connection with a trigger and watched places is valid.
pub fn project_is_valid()
    ensures { IsValidProject inhibited_event }
{
    checked_rungs_are_executable();
}

/// With an image too short, with a program that no task runs, or with a trigger that is no event task it isn't.
pub fn projects_are_invalid()
    ensures image { IsValidProject short_image → ⊥ }
    ensures schedule { IsValidProject unscheduled → ⊥ }
    ensures trigger { IsValidProject continuous_trigger → ⊥ }
{}
