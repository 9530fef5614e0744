// What is watched along a trace beside what is counted.
ghost use Rattle.std.specs.Prelude.{◌≡◌, ◌&&◌, ◌||◌, not, if◌then◌else◌, nat_lt, nat_eq, ◌<◌, ◌≤◌, ℕ, List, Bool, Option, length, replicate, slice_index_or, IfOk, IfSome, Some, None};
ghost use Rattle.std.specs.List.{list_any};
ghost use Rattle.spec_schedule.specs.Counting.{Counted, counted, is_open, counted_tasks, uncounted, Numbers, counted_all};
ghost use Rattle.spec_schedule.specs.declared.trace.TraceEvent.{TraceEvent};
ghost use Rattle.spec_schedule.specs.Legal.{no_task, is_tick};
ghost use Rattle.lgx_audit.specs.Along.{no_count, shown, Shown, IsWithin};
ghost use Rattle.lgx_audit.specs.Watching.{gives_at, is_rival_of, watch_by, watched, watched_step, stays, stays_last, candidate, last_after, unwatched, watch_at, is_unpassed, awaits_none};

use crate::counts::{Count, counted, is_for_all, stepping};
use crate::priority::higher_up;
use lgx_num::Memory;
use spec_schedule::{Table, TraceEvent};
use std::alloc::Global;

/// Of a task: it has stepped since the last tick and stays up since; another one of its priority has stepped after that;
/// it was up at the last tick when another was to give way to it, and stays up since.
#[derive(Clone, Copy)]
pub struct TurnState {
    pub stepped: bool,
    pub passed: bool,
    pub awaited: bool,
}

/// What is watched of tasks before the first event.
pub(crate) fn no_watches(alloc: Global, tasks: usize) -> Result<Vec<TurnState>, Memory>
    ensures { IfOk result (λ watches. watches.items ≡ replicate tasks unwatched) }
{
    let none = TurnState {
        stepped: false,
        passed: false,
        awaited: false,
    };
    Ok(vec![in alloc; none; tasks]?)
}

/// The task that gives way at a tick.
pub(crate) fn gives_at(table: &Table, counts: &[Count], last: Option<usize>) -> Option<usize>
    requires many { length counts.now ≡ length table.now.tasks }
    requires within { (t : ℕ) → last ≡ Some t → t < length table.now.tasks }
    ensures gives { (cs : List Counted) (ns : List Numbers) (e : TraceEvent) → Shown counts.now cs → result ≡ gives_at table.now (record { tasks = cs; programs = ns; event = e }) last }
    ensures within { (t : ℕ) → result ≡ Some t → t < length table.now.tasks }
{
    match last {
        Some(t) => {
            if may_give(table, counts, t) {
                Some(t)
            } else {
                None
            }
        }
        None => None,
    }
}

/// Whether task t has nothing open and no task of higher priority is up.
fn may_give(table: &Table, counts: &[Count], t: usize) -> bool
    requires many { length counts.now ≡ length table.now.tasks }
    requires within { t < length table.now.tasks }
    ensures { (cs : List Counted) → Shown counts.now cs → result ≡ (not (is_open (slice_index_or cs t uncounted)) && not (list_any (λ u. u.counts.up && nat_lt u.task.priority (slice_index_or table.now.tasks t no_task).priority) (counted_tasks table.now.tasks cs))) }
{
    let tasks = table.tasks.as_slice();
    let count = counts[t];
    let open = count.regions > 0 || count.cps_open;
    !open && !higher_up(tasks, counts, tasks[t].priority)
}

/// Whether a task is another one of the priority of the one that gives way.
fn is_rival(table: &Table, t: usize, gives: Option<usize>) -> bool
    requires task { t < length table.now.tasks }
    requires within { (u : ℕ) → gives ≡ Some u → u < length table.now.tasks }
    ensures { result ≡ is_rival_of table.now t gives }
{
    match gives {
        Some(u) => {
            let tasks = table.tasks.as_slice();
            tasks[t].priority == tasks[u].priority && t != u
        }
        None => false,
    }
}

/// What is watched of task t after a step or an action.
fn watched_step(
    table: &Table,
    t: usize,
    steps: Option<usize>,
    stay: bool,
    w: TurnState,
) -> TurnState
    requires task { t < length table.now.tasks }
    requires within { (u : ℕ) → steps ≡ Some u → u < length table.now.tasks }
    ensures { result ≡ watched_step table.now t steps stay w }
{
    match steps {
        Some(u) => {
            let tasks = table.tasks.as_slice();
            if u == t {
                TurnState {
                    stepped: stay,
                    passed: false,
                    awaited: w.awaited && stay,
                }
            } else {
                TurnState {
                    stepped: w.stepped && stay,
                    passed: w.passed || tasks[u].priority == tasks[t].priority,
                    awaited: w.awaited && stay,
                }
            }
        }
        None => TurnState {
            stepped: w.stepped && stay,
            passed: w.passed,
            awaited: w.awaited && stay,
        },
    }
}

/// What is watched of task t after the event.
fn watched(
    table: &Table,
    e: &TraceEvent,
    gives: Option<usize>,
    t: usize,
    up: bool,
    stay: bool,
    w: TurnState,
) -> TurnState
    requires task { t < length table.now.tasks }
    requires gives { (u : ℕ) → gives ≡ Some u → u < length table.now.tasks }
    requires within { IsWithin (length table.now.tasks) e.now }
    ensures { result ≡ watch_by table.now e.now gives t up stay w }
{
    match e {
        TraceEvent::Tick { .. } => TurnState {
            stepped: false,
            passed: false,
            awaited: up && is_rival(table, t, gives) && stay,
        },
        _ => watched_step(table, t, stepping(e), stay, w),
    }
}

/// What is watched of task t after the event, by what is counted of it before.
fn watch_one(
    table: &Table,
    count: Count,
    e: &TraceEvent,
    gives: Option<usize>,
    t: usize,
    w: TurnState,
) -> TurnState
    requires task { t < length table.now.tasks }
    requires gives { (u : ℕ) → gives ≡ Some u → u < length table.now.tasks }
    requires within { IsWithin (length table.now.tasks) e.now }
    requires regions { count.regions < 18446744073709551615 }
    requires downs { count.downs < 18446744073709551615 }
    ensures { (x : Counted) → count ≡ shown x → result ≡ watch_by table.now e.now gives t count.up (nat_eq x.downs (counted (slice_index_or table.now.tasks t no_task) t e.now x).downs) w }
{
    let tasks = table.tasks.as_slice();
    let after = counted(tasks[t], t, e, count);
    let stay = count.downs == after.downs;
    watched(table, e, gives, t, count.up, stay, w)
}

/// What is watched of all tasks after the event, by what is counted before it.
pub(crate) fn watch_all(
    table: &Table,
    counts: &[Count],
    watches: &mut [TurnState],
    e: &TraceEvent,
    gives: Option<usize>,
)
    requires many { length counts.now ≡ length table.now.tasks }
    requires watches { length watches.old ≡ length table.now.tasks }
    requires gives { (u : ℕ) → gives ≡ Some u → u < length table.now.tasks }
    requires within { IsWithin (length table.now.tasks) e.now }
    requires regions { (t : ℕ) → t < length counts.now → (slice_index_or counts.now t no_count).regions < 18446744073709551615 }
    requires downs { (t : ℕ) → t < length counts.now → (slice_index_or counts.now t no_count).downs < 18446744073709551615 }
    ensures { (cs : List Counted) (ns : List Numbers) (last : Option ℕ) (t : ℕ) → Shown counts.now cs → gives ≡ gives_at table.now (record { tasks = cs; programs = ns; event = e.now }) last → t < length watches.old →
        watch_at watches.new t ≡ watched table.now (record { tasks = cs; programs = ns; event = e.now }) last t (slice_index_or (counted_all table.now.tasks e.now cs) t uncounted) (watch_at watches.old t) }
{
    for (t, watch) in watches.iter_mut().enumerate() {
        *watch = watch_one(table, counts[t], e, gives, t, *watch);
    }
}

/// Whether task t stays up in a step of task u that changes no other task's counts.
fn stays_here(t: usize, u: usize, stay: bool) -> bool
    ensures { result ≡ (not (nat_eq t u) || stay) }
{
    t != u || stay
}

/// What is watched of all tasks after a step of task u that changes no other task's counts.
fn watch_step(table: &Table, watches: &mut [TurnState], u: usize, stay: bool)
    requires watches { length watches.old ≡ length table.now.tasks }
    requires task { u < length table.now.tasks }
    ensures { (t : ℕ) → t < length watches.old → watch_at watches.new t ≡ watched_step table.now t (Some u) (not (nat_eq t u) || stay) (watch_at watches.old t) }
{
    for (t, watch) in watches.iter_mut().enumerate() {
        let here = stays_here(t, u, stay);
        *watch = watched_step(table, t, Some(u), here, *watch);
    }
}

/// What is watched of all tasks after the event, by what is counted before it.
pub(crate) fn watch_event(
    table: &Table,
    counts: &[Count],
    watches: &mut [TurnState],
    e: &TraceEvent,
    gives: Option<usize>,
)
    requires many { length counts.now ≡ length table.now.tasks }
    requires watches { length watches.old ≡ length table.now.tasks }
    requires gives { (u : ℕ) → gives ≡ Some u → u < length table.now.tasks }
    requires within { IsWithin (length table.now.tasks) e.now }
    requires regions { (t : ℕ) → t < length counts.now → (slice_index_or counts.now t no_count).regions < 18446744073709551615 }
    requires downs { (t : ℕ) → t < length counts.now → (slice_index_or counts.now t no_count).downs < 18446744073709551615 }
    ensures { (cs : List Counted) (ns : List Numbers) (last : Option ℕ) (t : ℕ) → Shown counts.now cs → gives ≡ gives_at table.now (record { tasks = cs; programs = ns; event = e.now }) last → t < length watches.old →
        watch_at watches.new t ≡ watched table.now (record { tasks = cs; programs = ns; event = e.now }) last t (slice_index_or (counted_all table.now.tasks e.now cs) t uncounted) (watch_at watches.old t) }
{
    if is_for_all(e) {
        watch_all(table, counts, watches, e, gives);
    } else if let Some(u) = stepping(e) {
        let stay = stays(table, counts, e, u);
        watch_step(table, watches, u, stay);
    }
}

/// Whether a task is awaited.
pub(crate) fn any_awaited(watches: &[TurnState]) -> bool
    ensures { result ≡ list_any (λ v. v.awaited) watches.now }
{
    watches.iter().any(|watch| watch.awaited)
}

/// Whether it is no task that was passed since its last step.
pub(crate) fn is_unpassed(watches: &[TurnState], steps: Option<usize>) -> bool
    requires { (u : ℕ) → steps ≡ Some u → u < length watches.now }
    ensures { result ≡ is_unpassed watches.now steps }
{
    match steps {
        Some(t) => !(watches[t].stepped && watches[t].passed),
        None => true,
    }
}

/// Whether it is no task that is to give way and still awaits another.
pub(crate) fn awaits_none(watches: &[TurnState], way: Option<usize>, steps: Option<usize>) -> bool
    ensures { (last : Option ℕ) → result ≡ awaits_none (record { watches = watches.now; last = last; way = way }) steps }
{
    match steps {
        Some(t) => match way {
            Some(u) => !(u == t && any_awaited(watches)),
            None => true,
        },
        None => true,
    }
}

/// Whether task t stays up in the event.
fn stays(table: &Table, counts: &[Count], e: &TraceEvent, t: usize) -> bool
    requires many { length counts.now ≡ length table.now.tasks }
    requires task { t < length table.now.tasks }
    requires regions { (t : ℕ) → t < length counts.now → (slice_index_or counts.now t no_count).regions < 18446744073709551615 }
    requires downs { (t : ℕ) → t < length counts.now → (slice_index_or counts.now t no_count).downs < 18446744073709551615 }
    ensures { (cs : List Counted) → Shown counts.now cs → result ≡ stays (slice_index_or cs t uncounted) (slice_index_or (counted_all table.now.tasks e.now cs) t uncounted) }
{
    let tasks = table.tasks.as_slice();
    let before = counts[t];
    let after = counted(tasks[t], t, e, before);
    before.downs == after.downs
}

/// The task of the last step after the event, if it stays up in it.
fn candidate(e: &TraceEvent, last: Option<usize>) -> Option<usize>
    ensures { result ≡ candidate e.now last }
{
    match e {
        TraceEvent::Tick { .. } => None,
        TraceEvent::Act { .. } => last,
        _ => stepping(e),
    }
}

/// The task of the last step, if it stays up.
fn stays_last(table: &Table, counts: &[Count], e: &TraceEvent, last: Option<usize>) -> Option<usize>
    requires many { length counts.now ≡ length table.now.tasks }
    requires last { (u : ℕ) → last ≡ Some u → u < length table.now.tasks }
    requires regions { (t : ℕ) → t < length counts.now → (slice_index_or counts.now t no_count).regions < 18446744073709551615 }
    requires downs { (t : ℕ) → t < length counts.now → (slice_index_or counts.now t no_count).downs < 18446744073709551615 }
    ensures last { (cs : List Counted) → Shown counts.now cs → result ≡ stays_last cs (counted_all table.now.tasks e.now cs) last }
    ensures within { (u : ℕ) → result ≡ Some u → u < length table.now.tasks }
{
    match last {
        Some(t) => {
            if stays(table, counts, e, t) {
                Some(t)
            } else {
                None
            }
        }
        None => None,
    }
}

/// The task of the last step, after the event.
pub(crate) fn last_after(
    table: &Table,
    counts: &[Count],
    e: &TraceEvent,
    last: Option<usize>,
) -> Option<usize>
    requires many { length counts.now ≡ length table.now.tasks }
    requires last { (u : ℕ) → last ≡ Some u → u < length table.now.tasks }
    requires within { IsWithin (length table.now.tasks) e.now }
    requires regions { (t : ℕ) → t < length counts.now → (slice_index_or counts.now t no_count).regions < 18446744073709551615 }
    requires downs { (t : ℕ) → t < length counts.now → (slice_index_or counts.now t no_count).downs < 18446744073709551615 }
    ensures last { (cs : List Counted) (ns : List Numbers) → Shown counts.now cs → result ≡ last_after (record { tasks = cs; programs = ns; event = e.now }) (counted_all table.now.tasks e.now cs) last }
    ensures within { (u : ℕ) → result ≡ Some u → u < length table.now.tasks }
{
    stays_last(table, counts, e, candidate(e, last))
}

/// The task that gives way after the event.
pub(crate) fn way_after(e: &TraceEvent, gives: Option<usize>, way: Option<usize>) -> Option<usize>
    ensures { result ≡ (if is_tick e.now then gives else way) }
{
    match e {
        TraceEvent::Tick { .. } => gives,
        _ => way,
    }
}

/// Whether a step by this task, or none, keeps both parts of the turn law.
pub(crate) fn keeps_turns(watches: &[TurnState], way: Option<usize>, steps: Option<usize>) -> bool
    requires { (u : ℕ) → steps ≡ Some u → u < length watches.now }
    ensures { (last : Option ℕ) → result ≡ (is_unpassed watches.now steps && awaits_none (record { watches = watches.now; last = last; way = way }) steps) }
{
    let unpassed = is_unpassed(watches, steps);
    let free = awaits_none(watches, way, steps);
    unpassed && free
}
