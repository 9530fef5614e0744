// The place in a journal, run by run.
ghost use Rattle.std.specs.Prelude.{◌≡◌, ◌<◌, ◌≤◌, ◌∷◌, length, slice_index_or};
ghost use Rattle.spec_base.specs.declared.limits.TheConstants.{MAX_EVENTS};
ghost use Rattle.spec_text.specs.JournalText.{joined};
ghost use Rattle.cmd_trace.specs.TraceLeft.{no_run, events_left, HasNext};

use lgx_journal::Journal;

/// Goes on past an event of the run.
#[tactic(auto, using(crate::proofs::Places::same_run, crate::proofs::Places::next_run, crate::proofs::Places::run_goes_on, crate::proofs::Places::run_begins))]
pub(crate) fn pass(journal: &Journal, run: &mut u32, done: &mut u32)
    requires few { length journal.now.events ≤ MAX_EVENTS }
    requires some { run.old < length (joined journal.now.events) }
    requires next { done.old < (slice_index_or (joined journal.now.events) run.old no_run).count }
    ensures left { events_left (joined journal.now.events) run.old done.old
        ≡ (slice_index_or (joined journal.now.events) run.old no_run).event ∷ events_left (joined journal.now.events) run.new done.new }
    ensures next { HasNext (joined journal.now.events) run.new done.new }
    ensures runs { run.new ≤ length (joined journal.now.events) }
{
    let count = journal.count_at(*run);
    if *done + 1 < count {
        *done += 1;
    } else {
        *run += 1;
        *done = 0;
    }
}
