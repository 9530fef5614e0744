// Laws of journals that turns of a script's lanes make. Each function is a law: it does nothing, and its contract is what is
// shown.
ghost use Rattle.spec_lanes.specs.Held.{HoldsWordsAndModes};
ghost use Rattle.spec_lanes.specs.Laws.{AllIsComplete, CountsTell, DueActionsServe, FewEventsServe, NoneIsLeft, OpeningIsServed, StepsServe};

/// A journal begins with its own `mode run`, goes on by due actions and by processor steps with their ticks, and is partial for
/// the counts of its lanes' actions all the while. It has few events, whatever copies are open.
pub fn served_journals_go_on()
    ensures opening { OpeningIsServed }
    ensures actions { DueActionsServe }
    ensures steps { StepsServe }
    ensures counts { CountsTell }
    ensures few { FewEventsServe }
{}

/// Where a turn has nothing to do its lane has no action left, and where all actions were made and the steps are spent the
/// journal is complete.
pub fn whole_journals_are_complete()
    ensures left { NoneIsLeft }
    ensures complete { AllIsComplete }
{}

/// An open CPS holds I/O words and the commands on the mode, and no other action.
pub fn words_and_modes_are_held()
    ensures { HoldsWordsAndModes }
{}
