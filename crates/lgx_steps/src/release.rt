// Releases, and major faults.
ghost use Rattle.std.specs.Prelude.{◌≡◌, ℕ, ◌<◌, length, None};
ghost use Rattle.spec_machine.specs.State.{State};
ghost use Rattle.spec_machine.specs.Releases.{release_task, major_fault, overlap, overlap_code};
ghost use Rattle.lgx_sched.specs.Represents.{RepresentsTable};
ghost use Rattle.lgx_steps.specs.Represents.{RepresentsParts, IsLive};
ghost use Rattle.lgx_steps.specs.Gives.{GivesRelease};

use crate::parts::{ControllerParts, Released};
use lgx_sched::{Release, TaskKind};
use spec_machine::Mode;
use spec_tables::{EVENT_OVERLAP, Fault, PERIODIC_OVERLAP, Severity, TASK_FAULT};

/// The code of an overlap.
fn overlap_code(kind: TaskKind) -> u8
    ensures { result ≡ overlap_code kind }
{
    match kind {
        TaskKind::Periodic(_) => PERIODIC_OVERLAP,
        TaskKind::Continuous | TaskKind::Event => EVENT_OVERLAP,
    }
}

impl ControllerParts {
    /// Releases a task. One that is up overlaps, which is a minor fault; at one that is inhibited nothing changes.
    #[inline(never)]
    pub(crate) fn release(&mut self, t: u32) -> Released
        requires live { IsLive self.old }
        requires known { t < length self.old.progress.items }
        ensures gives { (n : ℕ) (s : State) → RepresentsParts n self.old s → GivesRelease n self.new result (release_task t s) }
        ensures tasks { length self.new.progress.items ≡ length self.old.progress.items }
        ensures image { self.new.image ≡ self.old.image }
    {
        let answer = self.table.release(t, self.tick);
        match answer {
            Release::Released => {
                self.leave_scan(t, 0);
                Released {
                    answer,
                    fault: None,
                }
            }
            Release::Overlap => {
                let fault = self.overlap(t);
                self.faults.note(fault);
                Released {
                    answer,
                    fault: Some(fault),
                }
            }
            Release::Inhibited => Released {
                answer,
                fault: None,
            },
        }
    }

    /// The fault of a task's overlap.
    fn overlap(&self, t: u32) -> Fault
        requires { t < length self.now.table.defs }
        ensures { (s : State) → RepresentsTable self.now.table s.table → self.now.tick ≡ s.tick → result ≡ overlap s t }
    {
        Fault {
            severity: Severity::Minor,
            kind: TASK_FAULT,
            code: overlap_code(self.table.kind(t)),
            task: t,
            program: None,
            tick: self.tick,
        }
    }

    /// A major fault: every task goes down and drops its scan, and the controller is Faulted.
    #[inline(never)]
    pub(crate) fn major_fault(&mut self, fault: Fault)
        requires live { IsLive self.old }
        ensures represents { (n : ℕ) (s : State) → RepresentsParts n self.old s → RepresentsParts n self.new (major_fault fault s) }
        ensures image { self.new.image ≡ self.old.image }
    {
        self.leave_scans();
        self.table.stop();
        self.mode = Mode::Faulted;
        self.faults.note(fault);
    }
}
