// The law of sessions, over the definitions alone. It is the contract of a function that does nothing.
ghost use Rattle.lgx_live.specs.Laws.{SessionsAreJournals};

/// The lines of a session that were done are a journal, if they are within the limits of one; and if its report cuts no line, the
/// report is what was answered, but for the lines that weren't done.
pub fn law_of_sessions()
    ensures { SessionsAreJournals }
{}
