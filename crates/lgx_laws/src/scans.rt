// The law of scans at one event.
ghost use Rattle.std.specs.Prelude.{◌≡◌, ◌&&◌, ◌<◌, ℕ, List, [], Option, Some, length, is_none, nat_eq, slice_index, slice_index_or};
ghost use Rattle.spec_schedule.specs.Counting.{Counted, CountedEvent, Numbers, is_task};
ghost use Rattle.spec_laws.specs.Scans.{keeps_scans};
ghost use Rattle.lgx_audit.specs.Along.{Shown, IsWithin};
ghost use Rattle.lgx_laws.specs.Kept.{Kept};

use crate::since::Since;
use lgx_audit::{Count, TraceEvent};
use lgx_num::Items;

/// Whether a task begins its next program.
fn begins_next(programs: &[u32], count: Count, since: Since, program: u32) -> bool
    ensures { result ≡ (is_none since.scan && nat_eq program (slice_index programs.now count.ended)) }
{
    let next = match programs.get(count.ended as usize) {
        Some(next) => *next,
        None => 0,
    };
    since.scan.is_none() && program == next
}

/// Whether the program is the one that the task has begun.
fn is_begun(since: Since, program: u32) -> bool
    ensures { result ≡ is_task program since.scan }
{
    match since.scan {
        Some(begun) => begun == program,
        None => false,
    }
}

/// Whether the event keeps the law of scans.
pub(crate) fn keeps_scans(
    schedule: &[Items<u32>],
    counts: &[Count],
    kept: &[Since],
    e: &TraceEvent,
) -> bool
    requires many { length counts.now ≡ length schedule.now }
    requires kept { length kept.now ≡ length schedule.now }
    requires within { IsWithin (length schedule.now) e.now }
    ensures { (cs : List Counted) (ns : List Numbers) (past : List CountedEvent) → Shown counts.now cs → Kept kept.now cs past
        → result ≡ keeps_scans schedule.now past (record { tasks = cs; programs = ns; event = e.now }) }
{
    match e {
        TraceEvent::Began { task, program, .. } => {
            let t = *task as usize;
            begins_next(schedule[t].as_slice(), counts[t], kept[t], *program)
        }
        TraceEvent::Step { task, program, .. } => is_begun(kept[*task as usize], *program),
        TraceEvent::Left { task, program, .. } => is_begun(kept[*task as usize], *program),
        _ => true,
    }
}
