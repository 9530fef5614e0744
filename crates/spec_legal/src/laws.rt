// The laws of the schedule, of every run. Each function is a law: it does nothing, and its contract is what is shown.
ghost use Rattle.spec_legal.specs.CountedRuns.{CountsAreTheMachines, NumbersAreTheBooks};
ghost use Rattle.spec_legal.specs.LegalRuns.{RunsAreLegal, RunsGiveWay, RunsKeepPriority, RunsKeepRegions, RunsKeepRungs, RunsKeepTurns, RunsKeepVersions, RunsRefuseRightly};

/// The priority law, the turn law between ticks and over them, the version law by the numbers, and the law of regions, for
/// every valid project and every list of events.
pub fn runs_are_legal()
    ensures priority { RunsKeepPriority }
    ensures turns { RunsKeepTurns }
    ensures ticks { RunsGiveWay }
    ensures versions { RunsKeepVersions }
    ensures legal { RunsAreLegal }
    ensures regions { RunsKeepRegions }
{}

/// The version law by the rungs, for every project and every list of events.
pub fn scans_keep_rungs()
    ensures { RunsKeepRungs }
{}

/// The refusal law, for every project and every list of events.
pub fn refusals_change_nothing()
    ensures { RunsRefuseRightly }
{}

/// What is counted along a run of a valid project is what the machine has: of its tasks, and of its programs' texts.
pub fn counts_are_the_machines()
    ensures tasks { CountsAreTheMachines }
    ensures texts { NumbersAreTheBooks }
{}
