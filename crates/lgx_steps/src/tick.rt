// The tick.
ghost use Rattle.std.specs.Prelude.{◌≡◌, ℕ, ◌+◌, ◌<◌, length, None};
ghost use Rattle.spec_base.specs.declared.limits.TheConstants.{MAX_TASKS};
ghost use Rattle.spec_machine.specs.State.{State};
ghost use Rattle.spec_machine.specs.Ticks.{tick, in_run, release_due, release_if_due, noted};
ghost use Rattle.lgx_steps.specs.Represents.{RepresentsParts, IsLive, HasRoom};
ghost use Rattle.lgx_steps.specs.Gives.{Gives, IsBelow};

use crate::parts::ControllerParts;
use lgx_sched::Release;
use spec_machine::{Mode, TickReport};
use spec_tables::{Fault, Severity, TASK_FAULT, WATCHDOG};

/// A report of nothing.
#[inline(always)]
fn quiet() -> TickReport
    ensures { result ≡ record { watchdog = None; released = 0; overlapped = 0 } }
{
    TickReport {
        watchdog: None,
        released: 0,
        overlapped: 0,
    }
}

/// A report with the answer of another task's release.
fn noted(t: u32, report: TickReport, answer: Release) -> TickReport
    requires few { t < MAX_TASKS }
    requires below { IsBelow t report }
    ensures report { result ≡ noted t report answer }
    ensures below { IsBelow (t + 1) result }
{
    let bit = 1u32 << t;
    match answer {
        Release::Released => TickReport {
            released: report.released + bit,
            ..report
        },
        Release::Overlap => TickReport {
            overlapped: report.overlapped + bit,
            ..report
        },
        Release::Inhibited => report,
    }
}

impl ControllerParts {
    /// One tick.
    #[inline]
    pub fn tick(&mut self) -> TickReport
        requires { HasRoom self.old }
        ensures gives { (n : ℕ) (s : State) → RepresentsParts n self.old s → Gives (n + 1) self.new result (tick s) }
        ensures image { self.new.image ≡ self.old.image }
    {
        self.tick += 1;
        match self.mode {
            Mode::Run => self.in_run(),
            Mode::Program | Mode::Faulted => quiet(),
        }
    }

    /// What a tick does in Run. Most find nothing to do, and the table knows of them.
    #[inline(always)]
    fn in_run(&mut self) -> TickReport
        requires { IsLive self.old }
        ensures gives { (n : ℕ) (s : State) → RepresentsParts n self.old s → Gives n self.new result (in_run s) }
        ensures image { self.new.image ≡ self.old.image }
    {
        if self.table.is_quiet(self.tick) {
            quiet()
        } else {
            self.find_work()
        }
    }

    /// A tick in Run that may find something to do. Afterwards the table knows until when ticks find nothing.
    #[inline(never)]
    fn find_work(&mut self) -> TickReport
        requires { IsLive self.old }
        ensures gives { (n : ℕ) (s : State) → RepresentsParts n self.old s → Gives n self.new result (in_run s) }
        ensures image { self.new.image ≡ self.old.image }
    {
        let report = self.watch_and_release();
        self.table.find_quiet(self.tick);
        report
    }

    /// Passes the turn on, and then releases each task that is due, unless a watchdog ran out: that is a major fault.
    fn watch_and_release(&mut self) -> TickReport
        requires { IsLive self.old }
        ensures gives { (n : ℕ) (s : State) → RepresentsParts n self.old s → Gives n self.new result (in_run s) }
        ensures image { self.new.image ≡ self.old.image }
    {
        self.table.rotate();
        match self.table.expired(self.tick) {
            Some(t) => {
                self.major_fault(Fault {
                    severity: Severity::Major,
                    kind: TASK_FAULT,
                    code: WATCHDOG,
                    task: t,
                    program: None,
                    tick: self.tick,
                });
                TickReport {
                    watchdog: Some(t),
                    released: 0,
                    overlapped: 0,
                }
            }
            None => self.release_due(),
        }
    }

    /// Releases each task that is due, in project order.
    fn release_due(&mut self) -> TickReport
        requires { IsLive self.old }
        ensures gives { (n : ℕ) (s : State) → RepresentsParts n self.old s → Gives n self.new result (release_due s) }
        ensures image { self.new.image ≡ self.old.image }
    {
        let mut report = quiet();
        for t in 0..self.table.len() {
            report = self.release_if_due(t, report);
        }
        report
    }

    /// Releases a task if it is due.
    fn release_if_due(&mut self, t: u32, report: TickReport) -> TickReport
        requires live { IsLive self.old }
        requires known { t < length self.old.table.defs }
        requires few { t < MAX_TASKS }
        requires below { IsBelow t report }
        ensures gives { (n : ℕ) (s : State) → RepresentsParts n self.old s → Gives n self.new result (release_if_due (record { state = s; answer = report }) t) }
        ensures live { IsLive self.new }
        ensures tasks { length self.new.table.defs ≡ length self.old.table.defs }
        ensures below { IsBelow (t + 1) result }
        ensures image { self.new.image ≡ self.old.image }
    {
        if self.table.due(t, self.tick) {
            let released = self.release(t);
            noted(t, report, released.answer)
        } else {
            report
        }
    }
}
