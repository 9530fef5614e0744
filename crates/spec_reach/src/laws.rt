// Laws of the states that a journal leads to. Each function is a law: it does nothing, and its contract is what is shown.
ghost use Rattle.spec_reach.specs.Bounds.{RunsAreBounded};
ghost use Rattle.spec_reach.specs.Images.{ImagesKeepLength};
ghost use Rattle.spec_reach.specs.OpenTasks.{OpenIsFirst};
ghost use Rattle.spec_reach.specs.Programs.{ListsAreApart, ProgramsAreScannedOnce, TasksAreAtPrograms};
ghost use Rattle.spec_reach.specs.Reachable.{AllIsReachable, EventsLeadOn, StartIsAfter};
ghost use Rattle.spec_reach.specs.Scans.{ScansAgree};
ghost use Rattle.spec_reach.specs.Sizes.{RunsKeepSizes};
ghost use Rattle.spec_reach.specs.Texts.{BooksCanRun, ScansCanRun};
ghost use Rattle.spec_reach.specs.Words.{SlotsAreInImage};

/// The plan, the tasks and the sizes of the state's parts stay; scans agree with the table; the open task is the first of
/// its priority; numbers grow no faster than the events; and the image keeps its length. This is so of every project.
pub fn reached_states_are_sound()
    ensures sizes { RunsKeepSizes }
    ensures scans { ScansAgree }
    ensures first { OpenIsFirst }
    ensures bounds { RunsAreBounded }
    ensures images { ImagesKeepLength }
{}

/// A task that is up is at a program of its list, and no two tasks scan one program. This needs a valid project, whose
/// lists have programs and share none.
pub fn tasks_are_at_programs()
    ensures programs { TasksAreAtPrograms }
    ensures lists { ListsAreApart }
    ensures scans { ProgramsAreScannedOnce }
{}

/// The rungs of the books and those of scans in progress can be executed over the image and trigger tasks that there are,
/// whatever was accepted.
pub fn rungs_can_run()
    ensures books { BooksCanRun }
    ensures scans { ScansCanRun }
{}

/// An I/O word that there is lies in the image, and what it triggers is a task.
pub fn words_lie_in_image()
    ensures { SlotsAreInImage }
{}

/// All of this of a state that some number of events leads to, in one record; the start is one, and each event leads to one.
pub fn states_are_reachable()
    ensures start { StartIsAfter }
    ensures next { EventsLeadOn }
    ensures all { AllIsReachable }
{}
