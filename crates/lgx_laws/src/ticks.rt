// The law of watchdogs and the law of releases, at one event.
ghost use Rattle.std.specs.Prelude.{◌≡◌, ◌+◌, ◌^◌, ◌<◌, ◌≤◌, ◌&&◌, if◌then◌else◌, ℕ, List, Option, Some, length, nat_eq, nat_le, slice_index_or};
ghost use Rattle.std.specs.Bool.{beq as agree};
ghost use Rattle.spec_tables.specs.Tasks.{no_task};
ghost use Rattle.spec_schedule.specs.Counting.{Counted, CountedEvent, Numbers};
ghost use Rattle.spec_schedule.specs.declared.trace.TraceEvent.{TraceEvent};
ghost use Rattle.spec_schedule.specs.declared.trace.TraceEvent.TheVariants.{Tick};
ghost use Rattle.spec_laws.specs.CountedBack.{ticks_in_run};
ghost use Rattle.spec_laws.specs.Watchdogs.{none_below, is_first_out, keeps_watchdogs};
ghost use Rattle.spec_laws.specs.TickReleases.{is_due, mask_below, keeps_releases};
ghost use Rattle.lgx_audit.specs.Along.{no_count, Shown};
ghost use Rattle.lgx_laws.specs.Kept.{no_since, Kept, HavePeriods, IsPeriod, IsToldWithin};

use crate::since::Since;
use lgx_audit::{Count, TraceEvent};
use spec_tables::{TaskDef, TaskKind};

/// Whether a task has been up, with this tick, for as long as its watchdog allows.
fn runs_out(task: TaskDef, count: Count, since: Since) -> bool
    requires { since.ticks < 18446744073709551615 }
    ensures { result ≡ (count.up && nat_le task.watchdog (since.ticks + 1)) }
{
    count.up && task.watchdog as u64 <= since.ticks + 1
}

/// Whether no task before number n ran out.
fn none_below(tasks: &[TaskDef], counts: &[Count], kept: &[Since], n: usize) -> bool
    requires many { length counts.now ≡ length tasks.now }
    requires kept { length kept.now ≡ length tasks.now }
    requires within { n ≤ length tasks.now }
    requires ticks { (t : ℕ) → t < length kept.now → (slice_index_or kept.now t no_since).ticks < 18446744073709551615 }
    ensures { (cs : List Counted) (ns : List Numbers) (past : List CountedEvent) (e : TraceEvent) → Shown counts.now cs → Kept kept.now cs past
        → result ≡ none_below tasks.now past (record { tasks = cs; programs = ns; event = e }) n }
{
    for t in 0..n {
        if runs_out(tasks[t], counts[t], kept[t]) {
            return false;
        }
    }
    true
}

/// Whether this is the first task that ran out, or none did.
fn is_first_out(tasks: &[TaskDef], counts: &[Count], kept: &[Since], told: Option<u32>) -> bool
    requires many { length counts.now ≡ length tasks.now }
    requires kept { length kept.now ≡ length tasks.now }
    requires told { (t : ℕ) → told ≡ Some t → t < length tasks.now }
    requires ticks { (t : ℕ) → t < length kept.now → (slice_index_or kept.now t no_since).ticks < 18446744073709551615 }
    ensures { (cs : List Counted) (ns : List Numbers) (past : List CountedEvent) (e : TraceEvent) → Shown counts.now cs → Kept kept.now cs past
        → result ≡ is_first_out tasks.now past (record { tasks = cs; programs = ns; event = e }) told }
{
    match told {
        Some(u) => {
            let t = u as usize;
            let out = runs_out(tasks[t], counts[t], kept[t]);
            out && none_below(tasks, counts, kept, t)
        }
        None => none_below(tasks, counts, kept, tasks.len()),
    }
}

/// Whether the event keeps the law of watchdogs.
pub(crate) fn keeps_watchdogs(
    tasks: &[TaskDef],
    counts: &[Count],
    kept: &[Since],
    e: &TraceEvent,
) -> bool
    requires many { length counts.now ≡ length tasks.now }
    requires kept { length kept.now ≡ length tasks.now }
    requires told { IsToldWithin (length tasks.now) e.now }
    requires ticks { (t : ℕ) → t < length kept.now → (slice_index_or kept.now t no_since).ticks < 18446744073709551615 }
    ensures { (cs : List Counted) (ns : List Numbers) (past : List CountedEvent) → Shown counts.now cs → Kept kept.now cs past
        → result ≡ keeps_watchdogs tasks.now past (record { tasks = cs; programs = ns; event = e.now }) }
{
    match e {
        TraceEvent::Tick { watchdog, .. } => is_first_out(tasks, counts, kept, *watchdog),
        _ => true,
    }
}

/// Whether a task is due at the tick that comes after `run` ticks in Run.
fn is_due(task: TaskDef, run: Option<u64>) -> bool
    requires period { IsPeriod task.kind }
    requires ticks { (n : ℕ) → run ≡ Some n → n < 18446744073709551615 }
    ensures { result ≡ is_due task run }
{
    match run {
        Some(ticks) => match task.kind {
            TaskKind::Periodic(period) => (ticks + 1) % period as u64 == 0 && !task.inhibited,
            TaskKind::Continuous | TaskKind::Event => false,
        },
        None => false,
    }
}

/// Whether a task is due, and up or down as is asked.
fn is_due_and(task: TaskDef, count: Count, run: Option<u64>, up: bool) -> bool
    requires period { IsPeriod task.kind }
    requires ticks { (n : ℕ) → run ≡ Some n → n < 18446744073709551615 }
    ensures { result ≡ (is_due task run && agree count.up up) }
{
    is_due(task, run) && count.up == up
}

/// The bit of task t in a mask, if it is to be there.
pub(crate) fn bit_if(test: bool, t: usize) -> u32
    requires { t < 32 }
    ensures { result ≡ (if test then 2 ^ t else 0) }
{
    if test { 1 << t } else { 0 }
}

/// The mask of the tasks that are due, of those that are up or of those that are down.
fn mask_due(tasks: &[TaskDef], counts: &[Count], run: Option<u64>, up: bool) -> u32
    requires few { length tasks.now ≤ 32 }
    requires many { length counts.now ≡ length tasks.now }
    requires periods { HavePeriods tasks.now }
    requires ticks { (n : ℕ) → run ≡ Some n → n < 18446744073709551615 }
    ensures { result ≡ mask_below (λ t. is_due (slice_index_or tasks.now t no_task) run && agree (slice_index_or counts.now t no_count).up up) (length tasks.now) }
{
    let mut mask = 0u32;
    for t in 0..tasks.len() {
        let test = is_due_and(tasks[t], counts[t], run, up);
        mask += bit_if(test, t);
    }
    mask
}

/// Whether two masks are these.
fn are_masks(released: u32, overlapped: u32, coming: u32, again: u32) -> bool
    ensures { result ≡ (nat_eq released coming && nat_eq overlapped again) }
{
    released == coming && overlapped == again
}

/// Whether a tick reports just the tasks that it releases and those that overlap.
fn tells_due(
    tasks: &[TaskDef],
    counts: &[Count],
    run: Option<u64>,
    released: u32,
    overlapped: u32,
    watchdog: Option<u32>,
) -> bool
    requires few { length tasks.now ≤ 32 }
    requires many { length counts.now ≡ length tasks.now }
    requires periods { HavePeriods tasks.now }
    requires ticks { (n : ℕ) → run ≡ Some n → n < 18446744073709551615 }
    ensures { (cs : List Counted) (ns : List Numbers) (past : List CountedEvent) → Shown counts.now cs → run ≡ ticks_in_run past
        → result ≡ keeps_releases tasks.now past (record { tasks = cs; programs = ns; event = Tick released overlapped watchdog }) }
{
    match watchdog {
        Some(_) => released == 0 && overlapped == 0,
        None => {
            let coming = mask_due(tasks, counts, run, false);
            let again = mask_due(tasks, counts, run, true);
            are_masks(released, overlapped, coming, again)
        }
    }
}

/// Whether the event keeps the law of releases.
pub(crate) fn keeps_releases(
    tasks: &[TaskDef],
    counts: &[Count],
    run: Option<u64>,
    e: &TraceEvent,
) -> bool
    requires few { length tasks.now ≤ 32 }
    requires many { length counts.now ≡ length tasks.now }
    requires periods { HavePeriods tasks.now }
    requires ticks { (n : ℕ) → run ≡ Some n → n < 18446744073709551615 }
    ensures { (cs : List Counted) (ns : List Numbers) (past : List CountedEvent) → Shown counts.now cs → run ≡ ticks_in_run past
        → result ≡ keeps_releases tasks.now past (record { tasks = cs; programs = ns; event = e.now }) }
{
    match e {
        TraceEvent::Tick {
            released,
            overlapped,
            watchdog,
        } => tells_due(tasks, counts, run, *released, *overlapped, *watchdog),
        _ => true,
    }
}
