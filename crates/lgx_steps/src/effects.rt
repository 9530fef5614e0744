// What the effect of a scan's step does to the tasks and to the faults.
ghost use Rattle.std.specs.Prelude.{◌≡◌, ℕ, ◌+◌, ◌<◌, length, Some, None};
ghost use Rattle.spec_scan.specs.KnownTasks.{TriggersKnownTask};
ghost use Rattle.spec_machine.specs.State.{State, progress_of};
ghost use Rattle.spec_machine.specs.Releases.{program_fault};
ghost use Rattle.spec_machine.specs.ProcessorStep.{after_effect};
ghost use Rattle.lgx_sched.specs.TableView.{next_task};
ghost use Rattle.lgx_steps.specs.Represents.{RepresentsParts, IsLive};
ghost use Rattle.lgx_steps.specs.Gives.{Gives};

use crate::parts::ControllerParts;
use crate::step::plainly;
use lgx_engine::Effect;
use spec_machine::{Mark, Moment, What};
use spec_tables::{Fault, OVERFLOW, PROGRAM_FAULT, Severity};

impl ControllerParts {
    /// What the effect of a scan's step of program `n` does. One that may bring a fault has a call of its own.
    #[inline(always)]
    pub(crate) fn after_effect(&mut self, t: u32, n: u32, effect: Effect) -> Moment
        requires live { IsLive self.old }
        requires chosen { next_task self.old.table ≡ Some t }
        requires known { t < length self.old.progress.items }
        requires target { TriggersKnownTask (length self.old.progress.items) effect }
        ensures gives { (k : ℕ) (s : State) → RepresentsParts k self.old s → Gives (k + 1) self.new result (after_effect s t (progress_of s t) n effect) }
        ensures image { self.new.image ≡ self.old.image }
    {
        let ran = What::Ran {
            task: t,
            program: n,
        };
        match effect {
            Effect::Ran => plainly(ran),
            Effect::Up => self.up(t, ran),
            Effect::Down => self.down(t, ran),
            Effect::CopyStart(sync) => self.copy_start(t, ran, sync),
            Effect::Copied { last, sync } => self.copied(t, n, last, sync),
            Effect::Left { ended } => self.left(t, n, ended),
            _ => self.after_rare_effect(t, n, effect),
        }
    }

    /// What a rare effect does. The answer is copied part by part, so that its room isn't cleared for the other effects.
    #[inline(always)]
    fn after_rare_effect(&mut self, t: u32, n: u32, effect: Effect) -> Moment
        requires live { IsLive self.old }
        requires chosen { next_task self.old.table ≡ Some t }
        requires known { t < length self.old.progress.items }
        requires target { TriggersKnownTask (length self.old.progress.items) effect }
        ensures gives { (k : ℕ) (s : State) → RepresentsParts k self.old s → Gives (k + 1) self.new result (after_effect s t (progress_of s t) n effect) }
        ensures image { self.new.image ≡ self.old.image }
    {
        let made = self.after_any_effect(t, n, effect);
        Moment {
            what: made.what,
            mark: made.mark,
            fault: made.fault,
        }
    }

    /// What any effect does.
    #[inline(never)]
    fn after_any_effect(&mut self, t: u32, n: u32, effect: Effect) -> Moment
        requires live { IsLive self.old }
        requires chosen { next_task self.old.table ≡ Some t }
        requires known { t < length self.old.progress.items }
        requires target { TriggersKnownTask (length self.old.progress.items) effect }
        ensures gives { (k : ℕ) (s : State) → RepresentsParts k self.old s → Gives (k + 1) self.new result (after_effect s t (progress_of s t) n effect) }
        ensures image { self.new.image ≡ self.old.image }
    {
        let ran = What::Ran {
            task: t,
            program: n,
        };
        match effect {
            Effect::Ran => plainly(ran),
            Effect::Up => self.up(t, ran),
            Effect::Down => self.down(t, ran),
            Effect::Trigger(other) => self.trigger(ran, other),
            Effect::CopyStart(sync) => self.copy_start(t, ran, sync),
            Effect::Copied { last, sync } => self.copied(t, n, last, sync),
            Effect::Left { ended } => self.left(t, n, ended),
            Effect::Minor => self.minor(t, n),
            Effect::Major(code) => self.major(t, n, code),
        }
    }

    /// The task opens a region.
    #[inline(always)]
    fn up(&mut self, t: u32, ran: What) -> Moment
        requires live { IsLive self.old }
        requires chosen { next_task self.old.table ≡ Some t }
        ensures gives { (k n : ℕ) (s : State) → RepresentsParts k self.old s → ran ≡ What.Ran t n → Gives (k + 1) self.new result (after_effect s t (progress_of s t) n Effect.Up) }
        ensures image { self.new.image ≡ self.old.image }
    {
        self.table.region_up(t);
        Moment {
            what: ran,
            mark: Mark::Up,
            fault: None,
        }
    }

    /// The task closes a region.
    #[inline(always)]
    fn down(&mut self, t: u32, ran: What) -> Moment
        requires live { IsLive self.old }
        requires chosen { next_task self.old.table ≡ Some t }
        ensures gives { (k n : ℕ) (s : State) → RepresentsParts k self.old s → ran ≡ What.Ran t n → Gives (k + 1) self.new result (after_effect s t (progress_of s t) n Effect.Down) }
        ensures image { self.new.image ≡ self.old.image }
    {
        self.table.region_down(t);
        Moment {
            what: ran,
            mark: Mark::Down,
            fault: None,
        }
    }

    /// The task triggers another one.
    #[inline(always)]
    fn trigger(&mut self, ran: What, other: u32) -> Moment
        requires live { IsLive self.old }
        requires target { other < length self.old.progress.items }
        ensures gives { (k t n : ℕ) (s : State) → RepresentsParts k self.old s → ran ≡ What.Ran t n → Gives (k + 1) self.new result (after_effect s t (progress_of s t) n (Effect.Trigger other)) }
        ensures image { self.new.image ≡ self.old.image }
    {
        let released = self.release(other);
        Moment {
            what: ran,
            mark: Mark::Trigger(other),
            fault: released.fault,
        }
    }

    /// The task's copy starts.
    #[inline(always)]
    fn copy_start(&mut self, t: u32, ran: What, sync: bool) -> Moment
        requires live { IsLive self.old }
        requires chosen { next_task self.old.table ≡ Some t }
        ensures gives { (k n : ℕ) (s : State) → RepresentsParts k self.old s → ran ≡ What.Ran t n → Gives (k + 1) self.new result (after_effect s t (progress_of s t) n (Effect.CopyStart sync)) }
        ensures image { self.new.image ≡ self.old.image }
    {
        self.table.set_copy(t, sync);
        Moment {
            what: ran,
            mark: Mark::CopyStart(sync),
            fault: None,
        }
    }

    /// An element was copied.
    #[inline(always)]
    fn copied(&mut self, t: u32, n: u32, last: bool, sync: bool) -> Moment
        requires live { IsLive self.old }
        requires chosen { next_task self.old.table ≡ Some t }
        ensures gives { (k : ℕ) (s : State) → RepresentsParts k self.old s → Gives (k + 1) self.new result (after_effect s t (progress_of s t) n (Effect.Copied last sync)) }
        ensures image { self.new.image ≡ self.old.image }
    {
        let what = What::Copied {
            task: t,
            program: n,
        };
        if last {
            self.table.set_copy(t, false);
            Moment {
                what,
                mark: Mark::CopyEnd(sync),
                fault: None,
            }
        } else {
            plainly(what)
        }
    }

    /// A routine was left.
    #[inline(always)]
    fn left(&mut self, t: u32, n: u32, ended: bool) -> Moment
        requires live { IsLive self.old }
        requires chosen { next_task self.old.table ≡ Some t }
        requires known { t < length self.old.progress.items }
        ensures gives { (k : ℕ) (s : State) → RepresentsParts k self.old s → Gives (k + 1) self.new result (after_effect s t (progress_of s t) n (Effect.Left ended)) }
        ensures image { self.new.image ≡ self.old.image }
    {
        let what = What::Left {
            task: t,
            program: n,
            ended,
        };
        if ended {
            self.end_scan(t);
            plainly(what)
        } else {
            plainly(what)
        }
    }

    /// A minor fault of an instruction.
    #[inline(always)]
    fn minor(&mut self, t: u32, n: u32) -> Moment
        requires live { IsLive self.old }
        ensures gives { (k : ℕ) (s : State) → RepresentsParts k self.old s → Gives (k + 1) self.new result (after_effect s t (progress_of s t) n Effect.Minor) }
        ensures image { self.new.image ≡ self.old.image }
    {
        let fault = self.program_fault(Severity::Minor, OVERFLOW, t, n);
        self.faults.note(fault);
        Moment {
            what: What::Ran {
                task: t,
                program: n,
            },
            mark: Mark::Plain,
            fault: Some(fault),
        }
    }

    /// A major fault of an instruction.
    #[inline(always)]
    fn major(&mut self, t: u32, n: u32, code: u8) -> Moment
        requires live { IsLive self.old }
        ensures gives { (k : ℕ) (s : State) → RepresentsParts k self.old s → Gives (k + 1) self.new result (after_effect s t (progress_of s t) n (Effect.Major code)) }
        ensures image { self.new.image ≡ self.old.image }
    {
        let fault = self.program_fault(Severity::Major, code, t, n);
        self.major_fault(fault);
        Moment {
            what: What::Ran {
                task: t,
                program: n,
            },
            mark: Mark::Plain,
            fault: Some(fault),
        }
    }

    /// A fault of an instruction.
    fn program_fault(&self, severity: Severity, code: u8, t: u32, n: u32) -> Fault
        ensures { (s : State) → self.now.tick ≡ s.tick → result ≡ program_fault s severity code t n }
    {
        Fault {
            severity,
            kind: PROGRAM_FAULT,
            code,
            task: t,
            program: Some(n),
            tick: self.tick,
        }
    }
}
