// Laws of the tasks, over the definitions alone.
ghost use Rattle.spec_machine.specs.ReleaseLaws.{InhibitedChangesNothing, OverlapsTellFaultsAlone, ReleasesAreOfTheTable};
ghost use Rattle.spec_machine.specs.TaskLaws.{InhibitedStayDown, OneOpen, OpenIsUp, RanksBelowNext, RanksDiffer, StepOfUpTask, UpInRun};

/// What holds of the tasks in every state that a journal leads to.
pub fn tasks_stay_orderly()
    ensures one_open { OneOpen }
    ensures open_is_up { OpenIsUp }
    ensures up_in_run { UpInRun }
    ensures inhibited_stay_down { InhibitedStayDown }
    ensures ranks_differ { RanksDiffer }
    ensures ranks_below_next { RanksBelowNext }
    ensures step_of_up_task { StepOfUpTask }
{}

/// What a release does: that of the table, with its answer.
pub fn releases_are_answered()
    ensures table { ReleasesAreOfTheTable }
    ensures inhibited { InhibitedChangesNothing }
    ensures overlap { OverlapsTellFaultsAlone }
{}
