// The turn law, over the definitions alone. The function is a law: it does nothing, and its contract is what is shown.
ghost use Rattle.spec_schedule.specs.TurnLaws.{TurnsAreDecided, WaysAreDecided};

/// The two tests of the turn law hold of a counted trace exactly if the law does, as it is stated over places of the trace.
pub fn turns_are_decided()
    ensures between_steps { TurnsAreDecided }
    ensures over_ticks { WaysAreDecided }
{}
