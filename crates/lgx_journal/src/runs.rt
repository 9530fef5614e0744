// The runs of a journal: as it keeps them, and as a reader of them sees them.
ghost use Rattle.std.specs.Prelude.{◌≡◌, ◌<◌, ◌≤◌, ◌+◌, ◌^◌, vec_len, vec_capacity};
ghost use Rattle.lgx_journal.specs.Runs.{join_of, with_last, count_of, last_count_of, seen_run};
ghost use Rattle.lgx_journal.specs.Written.{event_run};

use spec_machine::{Action, Event};

/// Processor steps that follow one another, ticks that do, each with their number; or an action, by its number among those of its
/// journal.
#[derive(Clone, Copy)]
pub(crate) enum Run {
    Cpu(u32),
    Tick(u32),
    Act(u32),
}

/// A run of equal events: processor steps or ticks with their number, or an action of a lane.
#[derive(Clone, Copy)]
pub enum EventsLent<'a> {
    Cpu(u32),
    Tick(u32),
    Act(u32, &'a Action),
}

/// An event alone, lent as a run of one.
#[inline]
pub fn single(event: &Event) -> EventsLent<'_>
    ensures { seen_run result ≡ event_run event.now 1 }
{
    match event {
        Event::Cpu => EventsLent::Cpu(1),
        Event::Tick => EventsLent::Tick(1),
        Event::Act(lane, action) => EventsLent::Act(*lane, action),
    }
}

/// Two runs that follow one another as one, if they are one.
#[inline(always)]
fn joined(before: Run, run: Run) -> Option<Run>
    requires { count_of before + count_of run < 2 ^ 32 }
    ensures { result ≡ join_of before run }
{
    match (before, run) {
        (Run::Cpu(count), Run::Cpu(more)) => Some(Run::Cpu(count + more)),
        (Run::Tick(count), Run::Tick(more)) => Some(Run::Tick(count + more)),
        _ => None,
    }
}

/// Puts a run after other runs.
#[inline(always)]
pub(crate) fn put_run(runs: &mut Vec<Run>, run: Run)
    requires room { vec_len runs.old < vec_capacity runs.old }
    requires few { last_count_of runs.old.items + count_of run < 2 ^ 32 }
    ensures items { runs.new.items ≡ with_last runs.old.items run }
    ensures len { vec_len runs.new ≤ vec_len runs.old + 1 }
    ensures capacity { vec_capacity runs.new ≡ vec_capacity runs.old }
{
    if runs.is_empty() {
        runs.push_reserved(run);
        return;
    }
    let last = runs.len() - 1;
    let before = runs[last];
    match joined(before, run) {
        Some(whole) => runs[last] = whole,
        None => runs.push_reserved(run),
    }
}
