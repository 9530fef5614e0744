// The law of copies at one event.
ghost use Rattle.std.specs.Prelude.{◌≡◌, List, None, Some, length, is_none};
ghost use Rattle.spec_schedule.specs.Counting.{Counted, CountedEvent, Numbers};
ghost use Rattle.lgx_audit.specs.Along.{IsWithin};
ghost use Rattle.lgx_laws.specs.Copies.{copies_on, copied_after, is_plain, goes_on, keeps_copies};
ghost use Rattle.lgx_laws.specs.Kept.{Kept};

use crate::since::Since;
use lgx_audit::{StepFault, TraceEvent, TraceMark};

/// The copy in progress after a step with this mark, by the one before it.
fn copies_on(mark: TraceMark, before: Option<bool>) -> Option<bool>
    ensures { result ≡ copies_on mark before }
{
    match mark {
        TraceMark::Copy => Some(false),
        TraceMark::Sync => Some(true),
        TraceMark::CopyEnd | TraceMark::SyncEnd => None,
        _ => before,
    }
}

/// The copy of task t after the event.
pub(crate) fn copied_after(t: usize, e: &TraceEvent, before: Option<bool>) -> Option<bool>
    ensures { result ≡ copied_after t e.now before }
{
    match e {
        TraceEvent::Step { task, mark, .. } => {
            if *task as usize == t {
                copies_on(*mark, before)
            } else {
                before
            }
        }
        _ => before,
    }
}

fn is_plain(fault: StepFault) -> bool
    ensures { result ≡ is_plain fault }
{
    match fault {
        StepFault::Plain => true,
        _ => false,
    }
}

/// Whether a step may show this while its task has no copy in progress.
fn begins(mark: TraceMark, fault: StepFault) -> bool
    ensures { result ≡ goes_on None mark fault }
{
    match mark {
        TraceMark::Copy | TraceMark::Sync => is_plain(fault),
        TraceMark::CopyEnd | TraceMark::SyncEnd => false,
        _ => true,
    }
}

/// Whether a step may show this while its task has a copy in progress, a CPS or another.
fn continues(sync: bool, mark: TraceMark, fault: StepFault) -> bool
    ensures { result ≡ goes_on (Some sync) mark fault }
{
    match mark {
        TraceMark::Plain => is_plain(fault),
        TraceMark::CopyEnd => is_plain(fault) && !sync,
        TraceMark::SyncEnd => is_plain(fault) && sync,
        _ => false,
    }
}

/// Whether a step goes on with the copy that its task has in progress, if there is one.
fn goes_on(copy: Option<bool>, mark: TraceMark, fault: StepFault) -> bool
    ensures { result ≡ goes_on copy mark fault }
{
    match copy {
        Some(sync) => continues(sync, mark, fault),
        None => begins(mark, fault),
    }
}

/// Whether the task has no copy in progress.
fn has_none(since: Since) -> bool
    ensures { result ≡ is_none since.copy }
{
    since.copy.is_none()
}

/// Whether the event keeps the law of copies.
pub(crate) fn keeps_copies(kept: &[Since], e: &TraceEvent) -> bool
    requires within { IsWithin (length kept.now) e.now }
    ensures { (cs : List Counted) (ns : List Numbers) (past : List CountedEvent) → Kept kept.now cs past
        → result ≡ keeps_copies past (record { tasks = cs; programs = ns; event = e.now }) }
{
    match e {
        TraceEvent::Began { task, .. } => has_none(kept[*task as usize]),
        TraceEvent::Step {
            task,
            mark,
            fault,
            ..
        } => goes_on(kept[*task as usize].copy, *mark, *fault),
        TraceEvent::Left { task, .. } => has_none(kept[*task as usize]),
        _ => true,
    }
}
