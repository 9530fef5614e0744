// A law of questions. The function does nothing, and its contract is what is shown.
ghost use Rattle.lgx_question.specs.Seen.{FirstLinesAreSeen, NoLineIsSeen};

/// Values of the watched places, and the program whose scan ended, determine which line holds first after an event.
pub fn lines_are_seen()
    ensures first { FirstLinesAreSeen }
    ensures none { NoLineIsSeen }
{}
