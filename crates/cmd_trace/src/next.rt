// The next event of a journal.
ghost use Rattle.std.specs.Prelude.{◌≡◌, ℕ, ◌+◌, ◌<◌, List, ◌++◌, false, length, IfOk};
ghost use Rattle.spec_text.specs.JournalText.{joined};
ghost use Rattle.spec_project.specs.Projects.{project_of};
ghost use Rattle.lgx_audit.specs.TraceText.{event_line};
ghost use Rattle.cmd_trace.specs.TraceLeft.{file_left, IsUnderWay};

use crate::place::pass;
use crate::seen::make;
use lgx_audit::TraceEvent;
use lgx_core::Controller;
use lgx_journal::Journal;
use lgx_num::{Memory, Name};

/// Makes the next event of a journal, and answers what is seen of it. Out of memory comes at an accept alone; then nothing changes.
pub(crate) fn next_event(
    controller: &mut Controller,
    names: &[Name],
    journal: &Journal,
    run: &mut u32,
    done: &mut u32,
) -> Result<TraceEvent, Memory>
    requires way { (bytes : List ℕ) × IsUnderWay bytes names.now controller.old journal.now.events run.old done.old }
    requires some { run.old < length (joined journal.now.events) }
    ensures way { (bytes : List ℕ) → IsUnderWay bytes names.now controller.old journal.now.events run.old done.old → IsUnderWay bytes names.now controller.new journal.now.events run.new done.new }
    ensures text { IfOk result (λ x. (bytes : List ℕ) → IsUnderWay bytes names.now controller.old journal.now.events run.old done.old →
        file_left (project_of bytes) journal.now.events controller.old.spent false ≡ event_line x ++ file_left (project_of bytes) journal.now.events controller.new.spent false) }
    ensures some { IfOk result (λ _. controller.old.spent < length journal.now.events) }
    ensures spent { IfOk result (λ _. controller.new.spent ≡ controller.old.spent + 1) }
{
    let event = journal.event_at(*run);
    let seen = make(controller, names, event)?;
    pass(journal, run, done);
    Ok(seen)
}
