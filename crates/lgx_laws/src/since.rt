// What is kept of each task since it came up, and of the controller since the change to Run.
ghost use Rattle.std.specs.Prelude.{◌≡◌, ◌+◌, ◌<◌, ◌≤◌, ◌&&◌, ◌∷◌, if◌then◌else◌, ℕ, List, Option, None, Some, length, nat_eq, option_map, replicate, slice_index_or, IfOk};
ghost use Rattle.spec_schedule.specs.Counting.{Counted, Numbers, counted, counted_all, stops};
ghost use Rattle.spec_laws.specs.CountedBack.{ticks_in, comes_to_run};
ghost use Rattle.spec_schedule.specs.Counting.{CountedEvent};
ghost use Rattle.spec_laws.specs.Scans.{scanned_after};
ghost use Rattle.lgx_laws.specs.Copies.{copied_after};
ghost use Rattle.lgx_laws.specs.Modes.{mode_shown};
ghost use Rattle.lgx_audit.specs.Along.{shown, no_count, Shown};
ghost use Rattle.lgx_laws.specs.Kept.{no_since, Kept};

use crate::copies::copied_after;
use crate::modes::mode_after;
use lgx_audit::{AuditTask, Count, TraceAnswer, TraceEvent, Verb, counted, stops};
use lgx_num::Memory;
use spec_machine::Mode;
use std::alloc::Global;

/// Of a task: the ticks since it came up, the program that it has begun since and not ended, and whether the copy that it has
/// started since and not ended is a CPS's.
#[derive(Clone, Copy)]
pub struct Since {
    pub ticks: u64,
    pub scan: Option<u32>,
    pub copy: Option<bool>,
}

/// What is kept of tasks before the first event.
pub(crate) fn nothing_since(alloc: Global, tasks: usize) -> Result<Vec<Since>, Memory>
    ensures { IfOk result (λ list. list.items ≡ replicate tasks no_since) }
{
    let none = Since {
        ticks: 0,
        scan: None,
        copy: None,
    };
    Ok(vec![in alloc; none; tasks]?)
}

/// How many ticks an event is: one at a tick, and else none.
fn ticks_in(e: &TraceEvent) -> u64
    ensures { result ≡ ticks_in e.now }
{
    match e {
        TraceEvent::Tick { .. } => 1,
        _ => 0,
    }
}

/// The program of the task's scan after the event.
fn scanned_after(t: usize, e: &TraceEvent, scan: Option<u32>) -> Option<u32>
    ensures { result ≡ scanned_after t e.now scan }
{
    match e {
        TraceEvent::Began { task, program, .. } => {
            if *task as usize == t {
                Some(*program)
            } else {
                scan
            }
        }
        TraceEvent::Left {
            task,
            ended: true,
            ..
        } => { if *task as usize == t { None } else { scan } }
        _ => scan,
    }
}

/// Whether task t is up before the event and stays up in it.
fn stays_up(task: AuditTask, t: usize, e: &TraceEvent, count: Count) -> bool
    requires downs { count.downs < 18446744073709551615 }
    requires regions { count.regions < 18446744073709551615 }
    ensures { (c : Counted) → count ≡ shown c → result ≡ (c.up && nat_eq c.downs (counted task t e.now c).downs) }
{
    let after = counted(task, t, e, count);
    count.up && count.downs == after.downs
}

/// What is kept of task t after the event.
fn since_after(t: usize, e: &TraceEvent, stays: bool, since: Since) -> Since
    requires { since.ticks < 18446744073709551615 }
    ensures since { result ≡ (if stays then record { ticks = ticks_in e.now + since.ticks; scan = scanned_after t e.now since.scan; copy = copied_after t e.now since.copy } else no_since) }
    ensures ticks { result.ticks ≤ since.ticks + 1 }
{
    if stays {
        Since {
            ticks: ticks_in(e) + since.ticks,
            scan: scanned_after(t, e, since.scan),
            copy: copied_after(t, e, since.copy),
        }
    } else {
        Since {
            ticks: 0,
            scan: None,
            copy: None,
        }
    }
}

/// What is kept of all tasks after the event, by what is counted before it.
pub(crate) fn keep_all(tasks: &[AuditTask], counts: &[Count], kept: &mut [Since], e: &TraceEvent)
    requires many { length counts.now ≡ length tasks.now }
    requires kept { length kept.old ≡ length tasks.now }
    requires regions { (t : ℕ) → t < length counts.now → (slice_index_or counts.now t no_count).regions < 18446744073709551615 }
    requires downs { (t : ℕ) → t < length counts.now → (slice_index_or counts.now t no_count).downs < 18446744073709551615 }
    requires ticks { (t : ℕ) → t < length kept.old → (slice_index_or kept.old t no_since).ticks < 18446744073709551615 }
    ensures kept { (cs : List Counted) (ns : List Numbers) (past : List CountedEvent) → Shown counts.now cs → Kept kept.old cs past
        → Kept kept.new (counted_all tasks.now e.now cs) (record { tasks = cs; programs = ns; event = e.now } ∷ past) }
    ensures ticks { (t : ℕ) → t < length kept.old → (slice_index_or kept.new t no_since).ticks ≤ (slice_index_or kept.old t no_since).ticks + 1 }
{
    for (t, since) in kept.iter_mut().enumerate() {
        let stays = stays_up(tasks[t], t, e, counts[t]);
        *since = since_after(t, e, stays, *since);
    }
}

/// Whether the event is a change to Run that was done.
fn comes_to_run(e: &TraceEvent) -> bool
    ensures { result ≡ comes_to_run e.now }
{
    match e {
        TraceEvent::Act {
            verb: Verb::Run,
            answer: TraceAnswer::Done,
            ..
        } => true,
        _ => false,
    }
}

/// The ticks since the change to Run after the event, none outside Run.
fn run_after(e: &TraceEvent, run: Option<u64>) -> Option<u64>
    requires { (n : ℕ) → run ≡ Some n → n < 18446744073709551615 }
    ensures run { result ≡ (if comes_to_run e.now then Some 0 else (if stops e.now then None else option_map (λ n. ticks_in e.now + n) run)) }
    ensures ticks { (most : ℕ) → ((n : ℕ) → run ≡ Some n → n ≤ most) → (n : ℕ) → result ≡ Some n → n ≤ most + 1 }
{
    if comes_to_run(e) {
        Some(0)
    } else if stops(e) {
        None
    } else {
        match run {
            Some(n) => Some(ticks_in(e) + n),
            None => None,
        }
    }
}

/// Of the controller: its mode, and the ticks since the change to Run, none outside Run.
#[derive(Clone, Copy)]
pub struct ModeSince {
    pub mode: Mode,
    pub run: Option<u64>,
}

/// What is kept of the controller after the event.
pub(crate) fn control_after(e: &TraceEvent, control: ModeSince) -> ModeSince
    requires { (n : ℕ) → control.run ≡ Some n → n < 18446744073709551615 }
    ensures mode { result.mode ≡ mode_shown e.now control.mode }
    ensures run { result.run ≡ (if comes_to_run e.now then Some 0 else (if stops e.now then None else option_map (λ n. ticks_in e.now + n) control.run)) }
    ensures ticks { (most : ℕ) → ((n : ℕ) → control.run ≡ Some n → n ≤ most) → (n : ℕ) → result.run ≡ Some n → n ≤ most + 1 }
{
    ModeSince {
        mode: mode_after(e, control.mode),
        run: run_after(e, control.run),
    }
}
