// A law of the texts of journals. The function does nothing, and its contract is what is shown.
ghost use Rattle.std.specs.Prelude.{◌≡◌, List};
ghost use Rattle.spec_text.specs.declared.script.EventRun.{EventRun};
ghost use Rattle.lgx_journal.specs.Written.{AreWritten, runs_text};

/// A text that is put together of lines that [`crate::write_event`] wrote, and of the line `end`, has one reading as
/// runs, also where runs of equal events aren't joined: the lanes are at most 31, and each event comes at least once, an action
/// once.
pub fn lines_have_one_reading()
    ensures { (runs others : List EventRun) → AreWritten runs → AreWritten others → runs_text runs ≡ runs_text others → runs ≡ others }
{}
