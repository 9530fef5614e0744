// The lines of an event's answer and of its faults.
ghost use Rattle.std.specs.Prelude.{◌≡◌, ◌+◌, ◌≤◌, ◌<◌, ◌^◌, [], ◌∷◌, length, map, IsTrue};
ghost use Rattle.spec_base.specs.declared.limits.TheConstants.{MAX_TASKS};
ghost use Rattle.spec_machine.specs.declared.line.Line.TheVariants.{Fault as FaultLine};
ghost use Rattle.spec_machine.specs.State.{State};
ghost use Rattle.spec_machine.specs.Report.{begin_lines};
ghost use Rattle.spec_machine.specs.Releases.{task_fault};
ghost use Rattle.spec_machine.specs.TickLaws.{watchdog_fault, report_faults};
ghost use Rattle.lgx_record.specs.Faults.{faults_in};
ghost use Rattle.std.specs.List.{AllByRecursion as Each};
ghost use Rattle.lgx_watch.specs.Kept.{with_lines};
ghost use Rattle.lgx_record.specs.EventLines.{begins_lines, with_event_lines, overlap_lines};

use lgx_core::Begins;
use lgx_watch::{Line, Log, MAX_WATCHES};
use spec_base::limits::MAX_TASKS;
use spec_machine::{Moment, TickReport, What};
use spec_tables::{Fault, PERIODIC_OVERLAP, Severity, TASK_FAULT, WATCHDOG};

/// The most lines of an event: its answer's, a fault for each task and one more, and the watched places.
pub const MAX_EVENT_LINES: u64 = 2 + MAX_TASKS as u64 + MAX_WATCHES as u64;

/// The tick and the number of processor steps with which the lines of an event begin, both after the event.
#[derive(Clone, Copy)]
pub(crate) struct Stamp {
    pub tick: u32,
    pub step: u32,
}

/// Puts a line into the log.
pub(crate) fn log_line(log: &mut Log, at: Stamp, line: Line)
    requires room { log.old.lost + 1 < 2 ^ 63 }
    ensures log { log.new ≡ with_event_lines log.old at (line ∷ []) }
    ensures lost { log.new.lost ≤ log.old.lost + 1 }
{
    log.push(at.tick, at.step, line);
}

/// Whether a processor step has no line but those of watched places: it began no scan, and has no fault.
#[inline(always)]
fn is_silent(moment: &Moment) -> bool
    ensures lines { IsTrue result → begin_lines moment.now.what ≡ [] }
    ensures faults { IsTrue result → faults_in moment.now.fault ≡ [] }
{
    !matches!(moment.what, What::Began { .. }) && moment.fault.is_none()
}

/// Puts the line of a processor step that began a scan into the log.
#[inline(always)]
pub(crate) fn log_begin(log: &mut Log, at: Stamp, what: What)
    requires room { log.old.lost + 1 < 2 ^ 63 }
    ensures log { log.new ≡ with_event_lines log.old at (begin_lines what) }
    ensures lost { log.new.lost ≤ log.old.lost + 1 }
{
    if let What::Began {
        task,
        program,
        version,
    } = what
    {
        log_line(
            log,
            at,
            Line::Begin {
                task,
                program,
                version,
            },
        );
    }
}

/// Puts the lines of the begins that a stretch noted into the log. The stamp is that before the stretch, and all of them have
/// its tick.
#[inline(always)]
pub(crate) fn log_begins(log: &mut Log, from: Stamp, begins: &Begins)
    requires room { log.old.lost + length begins.now.steps.items < 2 ^ 63 }
    requires small { Each (λ k. from.step + k + 1 < 2 ^ 32) begins.now.steps.items }
    ensures log { log.new ≡ with_lines log.old (begins_lines from.tick from.step begins.now.began begins.now.steps.items) }
    ensures lost { log.new.lost ≤ log.old.lost + length begins.now.steps.items }
{
    let steps = begins.steps.as_slice();
    if steps.is_empty() {
        return;
    }
    if log.is_full() {
        if let What::Began { .. } = begins.began {
            log.lose(steps.len() as u64);
        }
        return;
    }
    for i in 0..steps.len() {
        let at = Stamp {
            tick: from.tick,
            step: from.step + steps[i] + 1,
        };
        log_begin(log, at, begins.began);
    }
}

/// Puts the lines of a processor step into the log: that of the scan that it began, and that of its fault. Most steps have
/// neither, which is asked first.
#[inline(always)]
pub(crate) fn log_moment(log: &mut Log, at: Stamp, moment: &Moment)
    requires room { log.old.lost + 2 < 2 ^ 63 }
    ensures log { log.new ≡ with_event_lines (with_event_lines log.old at (begin_lines moment.now.what)) at (map FaultLine (faults_in moment.now.fault)) }
    ensures lost { log.new.lost ≤ log.old.lost + 2 }
{
    if is_silent(moment) {
        return;
    }
    log_begin(log, at, moment.what);
    log_fault(log, at, &moment.fault);
}

/// Puts the line of a fault into the log, if there is one. It is copied part by part, so that no room is taken for a fault that
/// isn't there.
#[inline(always)]
pub(crate) fn log_fault(log: &mut Log, at: Stamp, fault: &Option<Fault>)
    requires room { log.old.lost + 1 < 2 ^ 63 }
    ensures log { log.new ≡ with_event_lines log.old at (map FaultLine (faults_in fault.now)) }
    ensures lost { log.new.lost ≤ log.old.lost + 1 }
{
    if let Some(fault) = fault {
        log_line(
            log,
            at,
            Line::Fault(Fault {
                severity: fault.severity,
                kind: fault.kind,
                code: fault.code,
                task: fault.task,
                program: fault.program,
                tick: fault.tick,
            }),
        );
    }
}

/// Puts the lines of the faults that a tick recorded into the log: that of a watchdog, and those of overlaps in the order of
/// tasks.
#[inline(always)]
pub(crate) fn log_tick_faults(log: &mut Log, at: Stamp, report: TickReport)
    requires room { log.old.lost + MAX_TASKS + 1 < 2 ^ 63 }
    ensures log { (s : State) → s.tick ≡ at.tick → length s.table.defs ≤ MAX_TASKS → report.overlapped < 2 ^ length s.table.defs → log.new ≡ with_event_lines log.old at (map FaultLine (report_faults s report)) }
    ensures lost { log.new.lost ≤ log.old.lost + MAX_TASKS + 1 }
{
    log_watchdog(log, at, report.watchdog);
    log_overlaps(log, at, report.overlapped);
}

/// Puts the line of a watchdog that ran out into the log, if one did.
#[inline(always)]
fn log_watchdog(log: &mut Log, at: Stamp, watchdog: Option<u32>)
    requires room { log.old.lost + 1 < 2 ^ 63 }
    ensures log { (s : State) → s.tick ≡ at.tick → log.new ≡ with_event_lines log.old at (map FaultLine (watchdog_fault s watchdog)) }
    ensures lost { log.new.lost ≤ log.old.lost + 1 }
{
    if let Some(task) = watchdog {
        log_line(
            log,
            at,
            Line::Fault(task_fault(at, Severity::Major, WATCHDOG, task)),
        );
    }
}

/// Puts the line of an overlap into the log for each task of a mask, in the order of tasks.
fn log_overlaps(log: &mut Log, at: Stamp, overlapped: u32)
    requires room { log.old.lost + MAX_TASKS < 2 ^ 63 }
    ensures log { (s : State) → s.tick ≡ at.tick → log.new ≡ with_event_lines log.old at (overlap_lines s overlapped MAX_TASKS) }
    ensures lost { log.new.lost ≤ log.old.lost + MAX_TASKS }
{
    if overlapped == 0 {
        return;
    }
    for task in 0..MAX_TASKS as u32 {
        if (overlapped >> task) % 2 == 1 {
            log_line(
                log,
                at,
                Line::Fault(task_fault(at, Severity::Minor, PERIODIC_OVERLAP, task)),
            );
        }
    }
}

/// A fault of a task.
fn task_fault(at: Stamp, severity: Severity, code: u8, task: u32) -> Fault
    ensures { (s : State) → s.tick ≡ at.tick → result ≡ task_fault s severity code task }
{
    Fault {
        severity,
        kind: TASK_FAULT,
        code,
        task,
        program: None,
        tick: at.tick,
    }
}
