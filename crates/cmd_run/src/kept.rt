// What the types of a journal's events keep: names are names, numbers fit, and texts are such as edits have. So no line that is
// written of them is read as another. The functions do nothing: a contract learns these facts where the values are looked at.
ghost use Rattle.std.specs.Prelude.{IsTrue};
ghost use Rattle.std.specs.List.{list_all};
ghost use Rattle.spec_text.specs.JournalText.{joined};
ghost use Rattle.lgx_journal.specs.Written.{event_run, is_kept_edit, is_kept_action, is_kept_run};

use lgx_journal::{Action, Event, Journal, RungEdit};

/// An edit of a rung.
fn show_edit(edit: &RungEdit)
    ensures { IsTrue (is_kept_edit edit.now) }
{
    match edit {
        RungEdit::Replace(index, text) | RungEdit::Insert(index, text) => {
            let _ = text.bytes();
            let _index = *index;
        }
        RungEdit::Delete(index) => {
            let _index = *index;
        }
    }
}

/// The edits of an accept.
fn show_edits(edits: &[RungEdit])
    ensures { IsTrue (list_all is_kept_edit edits.now) }
{
    for edit in edits {
        show_edit(edit);
    }
}

/// Lets the prover see that an action keeps its limits.
fn show_action(action: &Action)
    ensures { IsTrue (is_kept_action action.now) }
{
    match action {
        Action::WordIn { conn, word, value } => {
            let _ = conn.bytes();
            let _numbers = (*word, *value);
        }
        Action::WordOut { conn, word } => {
            let _ = conn.bytes();
            let _word = *word;
        }
        Action::Accept(accept) => {
            let _ = accept.program.bytes();
            let _ = accept.routine.bytes();
            show_edits(accept.edits.as_slice());
        }
        Action::Test(program)
        | Action::Untest(program)
        | Action::Assemble(program)
        | Action::Cancel(program) => {
            let _ = program.bytes();
        }
        Action::ForceInstall {
            conn,
            word,
            mask,
            value,
        } => {
            let _ = conn.bytes();
            let _numbers = (*word, *mask, *value);
        }
        Action::ForceEnable
        | Action::ForceDisable
        | Action::ForceRemove
        | Action::ModeRun
        | Action::ModeProgram
        | Action::Clear => {}
    }
}

/// An event that is there so often.
fn show_event(event: &Event, count: u32)
    ensures { IsTrue (is_kept_run (event_run event.now count)) }
{
    match event {
        Event::Cpu | Event::Tick => {}
        Event::Act(_, action) => show_action(action),
    }
}

/// Every run of equal events.
pub(crate) fn show_kept(journal: &Journal)
    ensures { IsTrue (list_all is_kept_run (joined journal.now.events)) }
{
    for i in 0..journal.runs() {
        show_event(journal.event_at(i), journal.count_at(i));
    }
}
