// What is counted of each task along a trace.
ghost use Rattle.std.specs.Prelude.{◌≡◌, ◌+◌, ◌<◌, ◌≤◌, if◌then◌else◌, ℕ, List, length, replicate, slice_index_or, IfOk};
ghost use Rattle.spec_schedule.specs.Counting.{Counted, marked, program_ended, stepped, stepping, stops, has_bit, releases, counted, counted_all};
ghost use Rattle.spec_schedule.specs.Legal.{no_task};
ghost use Rattle.lgx_audit.specs.Along.{shown, no_count, Shown, IsWithin, is_for_all};

use lgx_num::Memory;
use spec_schedule::{AuditTask, StepFault, TraceAnswer, TraceEvent, TraceMark, Verb};
use std::alloc::Global;

/// What is counted of a task: whether it is up, its ended programs, its open regions, whether a CPS of it is open, and how
/// often it has gone down.
#[derive(Clone, Copy)]
pub struct Count {
    pub up: bool,
    pub ended: u32,
    pub regions: u64,
    pub cps_open: bool,
    pub downs: u64,
}

/// The counts of tasks before the first event.
pub fn no_counts(alloc: Global, tasks: usize) -> Result<Vec<Count>, Memory>
    ensures { IfOk result (λ counts. counts.items ≡ replicate tasks no_count) }
{
    let none = Count {
        up: false,
        ended: 0,
        regions: 0,
        cps_open: false,
        downs: 0,
    };
    Ok(vec![in alloc; none; tasks]?)
}

/// The counts after a mark.
fn marked(mark: TraceMark, c: Count) -> Count
    requires regions { c.regions < 18446744073709551615 }
    ensures counts { (x : Counted) → c ≡ shown x → result ≡ shown (marked mark x) }
    ensures regions { result.regions ≤ c.regions + 1 }
    ensures downs { result.downs ≤ c.downs + 1 }
{
    match mark {
        TraceMark::Up => Count {
            regions: c.regions + 1,
            ..c
        },
        TraceMark::Down => Count {
            regions: c.regions.saturating_sub(1),
            ..c
        },
        TraceMark::Sync => Count {
            cps_open: true,
            ..c
        },
        TraceMark::SyncEnd => Count {
            cps_open: false,
            ..c
        },
        _ => c,
    }
}

/// How often the task has gone down, if it goes down now.
fn downs_after(c: Count) -> u64
    requires { c.downs < 18446744073709551615 }
    ensures { result ≡ (if c.up then c.downs + 1 else c.downs) }
{
    if c.up { c.downs + 1 } else { c.downs }
}

/// The counts after a program has ended.
fn program_ended(d: AuditTask, c: Count) -> Count
    requires { c.downs < 18446744073709551615 }
    ensures counts { (x : Counted) → c ≡ shown x → result ≡ shown (program_ended d x) }
    ensures regions { result.regions ≤ c.regions + 1 }
    ensures downs { result.downs ≤ c.downs + 1 }
{
    if c.ended < d.programs && c.ended + 1 < d.programs {
        Count {
            ended: c.ended + 1,
            regions: 0,
            ..c
        }
    } else {
        Count {
            up: d.continuous,
            ended: 0,
            regions: 0,
            cps_open: false,
            downs: downs_after(c),
        }
    }
}

/// Whether every task goes down with the event.
pub fn stops(e: &TraceEvent) -> bool
    ensures { result ≡ stops e.now }
{
    match e {
        TraceEvent::Step {
            fault: StepFault::Major,
            ..
        } => true,
        TraceEvent::Tick {
            watchdog: Some(_),
            ..
        } => true,
        TraceEvent::Act {
            verb: Verb::Program,
            answer: TraceAnswer::Done,
            ..
        } => true,
        _ => false,
    }
}

/// Whether a mask has the bit of task t.
#[tactic(auto, using(crate::proofs::Masks::bit_beyond))]
fn has_bit(mask: u32, t: usize) -> bool
    ensures { result ≡ has_bit mask t }
{
    t < 32 && (mask >> t) & 1 == 1
}

/// Whether the event releases task t.
fn releases(d: AuditTask, e: &TraceEvent, t: usize) -> bool
    ensures { result ≡ releases d e.now t }
{
    match e {
        TraceEvent::Step {
            mark: TraceMark::Trigger(u),
            fault: StepFault::Plain,
            ..
        } => *u as usize == t && !d.inhibited,
        TraceEvent::Tick { released, .. } => has_bit(*released, t),
        TraceEvent::Act { released, .. } => has_bit(*released, t),
        _ => false,
    }
}

/// The counts after a step of the task.
fn stepped(d: AuditTask, e: &TraceEvent, c: Count) -> Count
    requires downs { c.downs < 18446744073709551615 }
    requires regions { c.regions < 18446744073709551615 }
    ensures counts { (x : Counted) → c ≡ shown x → result ≡ shown (stepped d e.now x) }
    ensures regions { result.regions ≤ c.regions + 1 }
    ensures downs { result.downs ≤ c.downs + 1 }
{
    match e {
        TraceEvent::Began { .. } => Count { regions: 0, ..c },
        TraceEvent::Step { mark, .. } => marked(*mark, c),
        TraceEvent::Left { ended: true, .. } => program_ended(d, c),
        _ => c,
    }
}

/// The task of a step.
pub fn stepping(e: &TraceEvent) -> Option<usize>
    ensures { result ≡ stepping e.now }
{
    match e {
        TraceEvent::Began { task, .. } => Some(*task as usize),
        TraceEvent::Step { task, .. } => Some(*task as usize),
        TraceEvent::Left { task, .. } => Some(*task as usize),
        _ => None,
    }
}

/// The counts of task t after the event.
pub fn counted(d: AuditTask, t: usize, e: &TraceEvent, c: Count) -> Count
    requires downs { c.downs < 18446744073709551615 }
    requires regions { c.regions < 18446744073709551615 }
    ensures counts { (x : Counted) → c ≡ shown x → result ≡ shown (counted d t e.now x) }
    ensures regions { result.regions ≤ c.regions + 1 }
    ensures downs { result.downs ≤ c.downs + 1 }
{
    if stops(e) {
        return Count {
            up: false,
            ended: 0,
            regions: 0,
            cps_open: false,
            downs: downs_after(c),
        };
    }
    let after = if stepping(e) == Some(t) {
        stepped(d, e, c)
    } else {
        c
    };
    if releases(d, e, t) {
        // Its ended programs are counted anew.
        let ended = 0;
        Count {
            up: true,
            ended,
            ..after
        }
    } else {
        after
    }
}

/// The counts of all tasks after the event.
fn count_all(tasks: &[AuditTask], counts: &mut [Count], e: &TraceEvent)
    requires many { length counts.old ≡ length tasks.now }
    requires regions { (t : ℕ) → t < length counts.old → (slice_index_or counts.old t no_count).regions < 18446744073709551615 }
    requires downs { (t : ℕ) → t < length counts.old → (slice_index_or counts.old t no_count).downs < 18446744073709551615 }
    ensures counts { (cs : List Counted) → Shown counts.old cs → Shown counts.new (counted_all tasks.now e.now cs) }
    ensures regions { (t : ℕ) → t < length counts.old → (slice_index_or counts.new t no_count).regions ≤ (slice_index_or counts.old t no_count).regions + 1 }
    ensures downs { (t : ℕ) → t < length counts.old → (slice_index_or counts.new t no_count).downs ≤ (slice_index_or counts.old t no_count).downs + 1 }
{
    for (t, count) in counts.iter_mut().enumerate() {
        *count = counted(tasks[t], t, e, *count);
    }
}

/// Whether the event may change the counts of a task that doesn't step in it.
pub(crate) fn is_for_all(e: &TraceEvent) -> bool
    ensures { result ≡ is_for_all e.now }
{
    match e {
        TraceEvent::Step {
            fault: StepFault::Major,
            ..
        } => true,
        TraceEvent::Step {
            mark: TraceMark::Trigger(_),
            ..
        } => true,
        TraceEvent::Tick { .. } => true,
        TraceEvent::Act {
            verb: Verb::Program,
            ..
        } => true,
        TraceEvent::Act { released, .. } => *released != 0,
        _ => false,
    }
}

/// The counts after the event: of all tasks, or of the one that steps if no other changes.
pub fn count_event(tasks: &[AuditTask], counts: &mut [Count], e: &TraceEvent)
    requires many { length counts.old ≡ length tasks.now }
    requires within { IsWithin (length tasks.now) e.now }
    requires regions { (t : ℕ) → t < length counts.old → (slice_index_or counts.old t no_count).regions < 18446744073709551615 }
    requires downs { (t : ℕ) → t < length counts.old → (slice_index_or counts.old t no_count).downs < 18446744073709551615 }
    ensures counts { (cs : List Counted) → Shown counts.old cs → Shown counts.new (counted_all tasks.now e.now cs) }
    ensures regions { (t : ℕ) → t < length counts.old → (slice_index_or counts.new t no_count).regions ≤ (slice_index_or counts.old t no_count).regions + 1 }
    ensures downs { (t : ℕ) → t < length counts.old → (slice_index_or counts.new t no_count).downs ≤ (slice_index_or counts.old t no_count).downs + 1 }
{
    if is_for_all(e) {
        count_all(tasks, counts, e);
    } else if let Some(t) = stepping(e) {
        let i = t;
        counts[i] = counted(tasks[i], t, e, counts[i]);
    }
}
