// Laws of the partial journals of a script. Each function is a law: it does nothing, and its contract is what is shown.
ghost use Rattle.spec_explore.specs.Completion.{PartialJournalsComplete, NeverIsExact};
ghost use Rattle.spec_explore.specs.Growth.{PartialJournalsGrow, PartialJournalsAreServed};
ghost use Rattle.spec_explore.specs.Witnesses.{WindowsGrow, StepsAreInTime, ActionsAreInTime, OpeningsAreInTime, FirstLinesHold, OpeningsWitness, ActionsWitness, StepsWitness, TicksWitness};
ghost use Rattle.spec_explore.specs.Layers.{LayersBegin, LayersGoOn, LayersEnd, LayersAreFew, NoMomentIsNever};

/// A partial journal is the opening, or a partial one and a due action, or a partial one and a processor step that wasn't spent.
/// So turns of the lanes make every partial journal.
pub fn journals_grow()
    ensures grow { PartialJournalsGrow }
    ensures served { PartialJournalsAreServed }
{}

/// Nodes that are closed under what may be done next cover all partial journals within the window, layer by layer.
pub fn layers_tell()
    ensures begin { LayersBegin }
    ensures go_on { LayersGoOn }
    ensures end { LayersEnd }
    ensures few { LayersAreFew }
    ensures never { NoMomentIsNever }
{}

/// What may be done next and shows a line makes the journal a witness; and how long a journal stays within the window.
pub fn witnesses_tell()
    ensures windows { WindowsGrow }
    ensures in_time { StepsAreInTime }
    ensures made { ActionsAreInTime }
    ensures at_first { OpeningsAreInTime }
    ensures lines { FirstLinesHold }
    ensures openings { OpeningsWitness }
    ensures actions { ActionsWitness }
    ensures steps { StepsWitness }
    ensures ticks { TicksWitness }
{}

/// Each partial journal is the beginning of a complete one; so without a window both forms of never are the same.
pub fn journals_complete()
    ensures complete { PartialJournalsComplete }
    ensures exact { NeverIsExact }
{}
