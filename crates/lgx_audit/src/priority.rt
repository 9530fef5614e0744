// The priority law at one event, by what is counted before it.
ghost use Rattle.std.specs.Prelude.{◌≡◌, ◌<◌, ◌≤◌, ◌&&◌, ◌||◌, not, ℕ, List, Bool, true, false, length, slice_index_or, nat_lt};
ghost use Rattle.std.specs.List.{list_any};
ghost use Rattle.spec_schedule.specs.Counting.{Counted, uncounted, Numbers, is_open, counted_tasks};
ghost use Rattle.spec_schedule.specs.Legal.{keeps_priority, no_task};
ghost use Rattle.lgx_audit.specs.Along.{Shown, IsWithin};

use crate::counts::Count;
use spec_schedule::{AuditTask, Table, TraceEvent};

/// Whether a task with a priority number below this one is up.
pub(crate) fn higher_up(tasks: &[AuditTask], counts: &[Count], below: u8) -> bool
    requires { length counts.now ≡ length tasks.now }
    ensures { (cs : List Counted) → Shown counts.now cs → result ≡ list_any (λ u. u.counts.up && nat_lt u.task.priority below) (counted_tasks tasks.now cs) }
{
    for (t, count) in counts.iter().enumerate() {
        if count.up && tasks[t].priority < below {
            return true;
        }
    }
    false
}

/// Whether any task is up.
fn any_up(tasks: &[AuditTask], counts: &[Count]) -> bool
    requires { length counts.now ≡ length tasks.now }
    ensures { (cs : List Counted) → Shown counts.now cs → result ≡ list_any (λ u. u.counts.up && true) (counted_tasks tasks.now cs) }
{
    for count in counts {
        if count.up {
            return true;
        }
    }
    false
}

/// Whether a step of task t keeps the priority law.
fn may_step(tasks: &[AuditTask], counts: &[Count], t: usize) -> bool
    requires many { length counts.now ≡ length tasks.now }
    requires within { t < length tasks.now }
    ensures { (cs : List Counted) → Shown counts.now cs → result ≡ ((slice_index_or cs t uncounted).up && (is_open (slice_index_or cs t uncounted) || not (list_any (λ u. u.counts.up && nat_lt u.task.priority (slice_index_or tasks.now t no_task).priority) (counted_tasks tasks.now cs)))) }
{
    let count = counts[t];
    let higher = higher_up(tasks, counts, tasks[t].priority);
    count.up && (count.regions > 0 || count.cps_open || !higher)
}

/// Whether the event keeps the priority law after what is counted.
pub(crate) fn keeps_priority(table: &Table, counts: &[Count], e: &TraceEvent) -> bool
    requires many { length counts.now ≡ length table.now.tasks }
    requires within { IsWithin (length table.now.tasks) e.now }
    ensures { (cs : List Counted) (ns : List Numbers) → Shown counts.now cs → result ≡ keeps_priority table.now (record { tasks = cs; programs = ns; event = e.now }) }
{
    let tasks = table.tasks.as_slice();
    match e {
        TraceEvent::Idle => !any_up(tasks, counts),
        TraceEvent::Began { task, .. } => may_step(tasks, counts, *task as usize),
        TraceEvent::Step { task, .. } => may_step(tasks, counts, *task as usize),
        TraceEvent::Left { task, .. } => may_step(tasks, counts, *task as usize),
        _ => true,
    }
}
