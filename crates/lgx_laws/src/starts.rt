// The law of starts at one event.
ghost use Rattle.std.specs.Prelude.{◌≡◌, ◌^◌, ◌<◌, ◌≤◌, ◌&&◌, ◌||◌, not, ℕ, List, Option, length, nat_eq, slice_index_or};
ghost use Rattle.spec_tables.specs.Tasks.{no_task, is_continuous};
ghost use Rattle.spec_machine.specs.declared.reply.Mode.TheVariants.{Run};
ghost use Rattle.spec_machine.specs.ValidProject.{is_event};
ghost use Rattle.spec_schedule.specs.Counting.{Counted, CountedEvent, Numbers};
ghost use Rattle.spec_schedule.specs.declared.trace.TraceEvent.{TraceEvent};
ghost use Rattle.spec_schedule.specs.declared.trace.TraceEvent.TheVariants.{Act};
ghost use Rattle.spec_schedule.specs.Refusals.{is_mode};
ghost use Rattle.spec_laws.specs.TickReleases.{mask_below};
ghost use Rattle.lgx_audit.specs.Along.{no_count, Shown};
ghost use Rattle.lgx_laws.specs.Modes.{mode_after};
ghost use Rattle.lgx_laws.specs.Starts.{may_come_up, is_event_mask, may_trigger, keeps_starts};

use crate::modes::holds;
use crate::ticks::bit_if;
use lgx_audit::{Count, TraceAnswer, TraceEvent, Verb};
use spec_machine::Mode;
use spec_tables::{TaskDef, TaskKind};

fn is_continuous(kind: TaskKind) -> bool
    ensures { result ≡ is_continuous kind }
{
    match kind {
        TaskKind::Continuous => true,
        _ => false,
    }
}

fn is_event(kind: TaskKind) -> bool
    ensures { result ≡ is_event kind }
{
    match kind {
        TaskKind::Event => true,
        _ => false,
    }
}

/// Whether the change to Run releases the task.
fn comes_up_at_run(task: TaskDef, count: Count) -> bool
    ensures { result ≡ ((is_continuous task.kind && not task.inhibited) && not count.up) }
{
    is_continuous(task.kind) && !task.inhibited && !count.up
}

/// Whether an input's word may release the task.
fn starts_event(task: TaskDef, count: Count) -> bool
    ensures { result ≡ ((is_event task.kind && not task.inhibited) && not count.up) }
{
    is_event(task.kind) && !task.inhibited && !count.up
}

/// The mask of the tasks that the change to Run releases.
fn run_mask(tasks: &[TaskDef], counts: &[Count]) -> u32
    requires few { length tasks.now ≤ 32 }
    requires many { length counts.now ≡ length tasks.now }
    ensures { result ≡ mask_below (λ t. (is_continuous (slice_index_or tasks.now t no_task).kind && not (slice_index_or tasks.now t no_task).inhibited) && not (slice_index_or counts.now t no_count).up) (length tasks.now) }
{
    let mut mask = 0u32;
    for t in 0..tasks.len() {
        let test = comes_up_at_run(tasks[t], counts[t]);
        mask += bit_if(test, t);
    }
    mask
}

/// Whether the mask is that of this one task, which an input's word may release.
fn is_mask_of(mask: u32, t: usize, task: TaskDef, count: Count) -> bool
    requires { t < 32 }
    ensures { result ≡ (nat_eq mask (2 ^ t) && ((is_event task.kind && not task.inhibited) && not count.up)) }
{
    let bit = bit_if(true, t);
    mask == bit && starts_event(task, count)
}

/// Whether the mask is that of one task which an input's word may release.
fn is_event_mask(tasks: &[TaskDef], counts: &[Count], mask: u32) -> bool
    requires few { length tasks.now ≤ 32 }
    requires many { length counts.now ≡ length tasks.now }
    ensures { (cs : List Counted) (ns : List Numbers) (e : TraceEvent) → Shown counts.now cs → result ≡ is_event_mask tasks.now (record { tasks = cs; programs = ns; event = e }) mask }
{
    for t in 0..tasks.len() {
        if is_mask_of(mask, t, tasks[t], counts[t]) {
            return true;
        }
    }
    false
}

fn is_run(mode: Mode) -> bool
    ensures { result ≡ is_mode mode Run }
{
    match mode {
        Mode::Run => true,
        _ => false,
    }
}

/// Whether an input's word may release its trigger.
fn may_trigger(counts: &[Count], mode: Mode) -> bool
    ensures { (cs : List Counted) (ns : List Numbers) (past : List CountedEvent) (e : TraceEvent) → Shown counts.now cs → mode ≡ mode_after past
        → result ≡ may_trigger past (record { tasks = cs; programs = ns; event = e }) }
{
    let run = is_run(mode);
    let held = holds(counts);
    run && !held
}

/// Whether an input's word, or another action that is no edit and no command of modes, may have released these.
fn may_release(tasks: &[TaskDef], counts: &[Count], mode: Mode, mask: u32) -> bool
    requires few { length tasks.now ≤ 32 }
    requires many { length counts.now ≡ length tasks.now }
    ensures { (cs : List Counted) (ns : List Numbers) (past : List CountedEvent) (e : TraceEvent) → Shown counts.now cs → mode ≡ mode_after past
        → result ≡ (nat_eq mask 0 || (may_trigger past (record { tasks = cs; programs = ns; event = e }) && is_event_mask tasks.now (record { tasks = cs; programs = ns; event = e }) mask)) }
{
    let comes = may_trigger(counts, mode);
    let one = is_event_mask(tasks, counts, mask);
    mask == 0 || comes && one
}

/// Whether the change to Run released these.
fn is_run_mask(tasks: &[TaskDef], counts: &[Count], mask: u32) -> bool
    requires few { length tasks.now ≤ 32 }
    requires many { length counts.now ≡ length tasks.now }
    ensures { (cs : List Counted) (ns : List Numbers) (past : List CountedEvent) (e : TraceEvent) → Shown counts.now cs
        → result ≡ nat_eq mask (mask_below (may_come_up is_continuous tasks.now (record { tasks = cs; programs = ns; event = e })) (length tasks.now)) }
{
    mask == run_mask(tasks, counts)
}

/// Whether an action may have released these, by its verb and its answer.
fn may_have_released(
    tasks: &[TaskDef],
    counts: &[Count],
    mode: Mode,
    verb: Verb,
    answer: TraceAnswer,
    mask: u32,
) -> bool
    requires few { length tasks.now ≤ 32 }
    requires many { length counts.now ≡ length tasks.now }
    ensures { (cs : List Counted) (ns : List Numbers) (past : List CountedEvent) (lane : ℕ) (g : Option ℕ) → Shown counts.now cs → mode ≡ mode_after past
        → result ≡ keeps_starts tasks.now past (record { tasks = cs; programs = ns; event = Act lane verb g answer mask }) }
{
    match answer {
        TraceAnswer::Done => match verb {
            Verb::Run => is_run_mask(tasks, counts, mask),
            Verb::Other => may_release(tasks, counts, mode, mask),
            _ => mask == 0,
        },
        _ => mask == 0,
    }
}

/// Whether the event keeps the law of starts.
pub(crate) fn keeps_starts(tasks: &[TaskDef], counts: &[Count], mode: Mode, e: &TraceEvent) -> bool
    requires few { length tasks.now ≤ 32 }
    requires many { length counts.now ≡ length tasks.now }
    ensures { (cs : List Counted) (ns : List Numbers) (past : List CountedEvent) → Shown counts.now cs → mode ≡ mode_after past
        → result ≡ keeps_starts tasks.now past (record { tasks = cs; programs = ns; event = e.now }) }
{
    match e {
        TraceEvent::Act {
            verb,
            answer,
            released,
            ..
        } => may_have_released(tasks, counts, mode, *verb, *answer, *released),
        _ => true,
    }
}
