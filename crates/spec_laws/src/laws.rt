// The laws of a run. The function does nothing, and its contract is what is shown.
ghost use Rattle.spec_laws.specs.Lawful.{RunsAreLawful};

/// Each run of a valid project is lawful: steps are of the task that the schedule chooses, scans run the rungs that were selected,
/// refusals come and change nothing, watchdogs run out, due and triggered tasks are released, modes change as they are to, scans
/// begin and go on, what runs was checked, and what changes a tag is among its writers.
pub fn runs_are_lawful()
    ensures { RunsAreLawful }
{}
