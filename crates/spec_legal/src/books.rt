// A law of the books of edits. The function does nothing, and its contract is what is shown.
ghost use Rattle.spec_legal.specs.Merged.{RunsKeepMerged};

/// In every run a book's merged rungs are its base with its accepted edits, whatever was tested, assembled and cancelled before.
pub fn books_are_merged()
    ensures { RunsKeepMerged }
{}
