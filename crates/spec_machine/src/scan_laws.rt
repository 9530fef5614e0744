// What an engine may rest on of checked rungs.
ghost use Rattle.spec_machine.specs.ExecutableLaws.{CheckedAreExecutable, CheckedKnowTasks};

/// Checked rungs are executable over the image of their tags: what an engine asks of rungs is met by all that were checked.
pub fn checked_rungs_are_executable()
    ensures { CheckedAreExecutable }
{}

/// What checked rungs trigger are tasks of their project.
pub fn checked_rungs_know_tasks()
    ensures { CheckedKnowTasks }
{}
