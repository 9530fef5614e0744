// The law of triggers at one event.
ghost use Rattle.std.specs.Prelude.{◌≡◌, ◌<◌, ℕ, List, Some, length};
ghost use Rattle.spec_schedule.specs.Counting.{Counted, Numbers};
ghost use Rattle.spec_laws.specs.Triggers.{tells_overlap, keeps_triggers};
ghost use Rattle.lgx_audit.specs.Along.{Shown};
ghost use Rattle.lgx_laws.specs.Kept.{IsTriggeredWithin};

use lgx_audit::{Count, StepFault, TraceEvent, TraceMark};
use spec_tables::TaskDef;

/// Whether a fault says just this: that a task overlaps, or doesn't.
fn tells_overlap(fault: StepFault, overlaps: bool) -> bool
    ensures { result ≡ tells_overlap fault overlaps }
{
    match fault {
        StepFault::Plain => !overlaps,
        StepFault::Minor => overlaps,
        StepFault::Major => false,
    }
}

/// Whether the event keeps the law of triggers.
pub(crate) fn keeps_triggers(tasks: &[TaskDef], counts: &[Count], e: &TraceEvent) -> bool
    requires many { length counts.now ≡ length tasks.now }
    requires within { IsTriggeredWithin (length tasks.now) e.now }
    ensures { (cs : List Counted) (ns : List Numbers) → Shown counts.now cs → result ≡ keeps_triggers tasks.now (record { tasks = cs; programs = ns; event = e.now }) }
{
    match e {
        TraceEvent::Step {
            mark: TraceMark::Trigger(u),
            fault,
            ..
        } => {
            let t = *u as usize;
            let overlaps = counts[t].up && !tasks[t].inhibited;
            tells_overlap(*fault, overlaps)
        }
        _ => true,
    }
}
