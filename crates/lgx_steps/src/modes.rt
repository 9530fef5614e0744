// The changes of mode.
ghost use Rattle.std.specs.Prelude.{◌≡◌, ℕ, ◌<◌, ◌≤◌, Bool, true, length, map, None, IfSome};
ghost use Rattle.std.specs.List.{AllByRecursion as Each};
ghost use Rattle.spec_base.specs.declared.limits.TheConstants.{MAX_TASKS};
ghost use Rattle.spec_machine.specs.declared.limits.TheConstants.{MAX_PROGRAMS};
ghost use Rattle.spec_machine.specs.Releases.{mask_of};
ghost use Rattle.spec_machine.specs.State.{State};
ghost use Rattle.spec_machine.specs.Actions.{mode_run, mode_program, clear, ran, replied as acted, to_program, prescan_all};
ghost use Rattle.lgx_image.specs.Grains.{ChangesOnlyMarked};
ghost use Rattle.lgx_edit.specs.EditsView.{books};
ghost use Rattle.lgx_steps.specs.PartsView.{without_flags};
ghost use Rattle.lgx_steps.specs.Plans.{IsReadyBook};
ghost use Rattle.lgx_steps.specs.Represents.{RepresentsParts, IsLive};
ghost use Rattle.lgx_steps.specs.Gives.{Gives};

use crate::parts::{ControllerParts, Progress};
use lgx_edit::EditBook;
use lgx_image::Image;
use lgx_num::Flags;
use lgx_prescan::prescan;
use spec_machine::{Mode, ModeFault, Outcome, Reply};

/// An answer of a reply alone.
pub(crate) fn replied(reply: Reply) -> Outcome
    ensures { result ≡ record { reply = reply; fault = None; released = 0 } }
{
    Outcome {
        reply,
        fault: None,
        released: 0,
    }
}

/// The mask of one task, or of none.
pub(crate) fn mask_of(task: Option<u32>) -> u32
    requires { IfSome task (λ t. t < MAX_TASKS) }
    ensures { result ≡ mask_of task }
{
    match task {
        Some(t) => 1 << t,
        None => 0,
    }
}

/// The prescan of every program by its selected rungs; there are `programs`.
fn prescan_all(book: &EditBook, programs: usize, image: &mut Image)
    requires many { length book.now ≡ programs }
    requires few { programs ≤ MAX_PROGRAMS }
    requires ready { (tasks : ℕ) × (n : ℕ) × Each (IsReadyBook (length image.old.bytes) tasks n) (books book.now) }
    ensures bytes { image.new.bytes ≡ prescan_all (books book.now) image.old.bytes }
    ensures only_marked { ChangesOnlyMarked image.old image.new }
{
    for n in 0..programs {
        prescan(book.selected(n as u32), image);
    }
}

/// No flag is set.
fn clear_flags(progress: &mut [Progress])
    ensures { progress.new ≡ map without_flags progress.old }
{
    for one in progress.iter_mut() {
        one.flags = Flags {
            v: false,
            z: false,
            n: false,
        };
    }
}

/// Each program's next scan is its first.
fn mark_all(firsts: &mut [bool])
    ensures { firsts.new ≡ map (λ b. true) firsts.old }
{
    for first in firsts.iter_mut() {
        *first = true;
    }
}

impl ControllerParts {
    /// The change to Run: `Held` comes while a CPS is in progress, then M2 if the controller is Faulted, and M1 if it is in Run.
    pub fn mode_run(&mut self) -> Outcome
        requires { IsLive self.old }
        ensures gives { (n : ℕ) (s : State) → RepresentsParts n self.old s → Gives n self.new result (mode_run s) }
        ensures only_marked { ChangesOnlyMarked self.old.image self.new.image }
    {
        if self.table.held() {
            return replied(Reply::Held);
        }
        match self.mode {
            Mode::Program => self.run(),
            Mode::Run => replied(Reply::Mode(ModeFault::M1)),
            Mode::Faulted => replied(Reply::Mode(ModeFault::M2)),
        }
    }

    /// Every program is prescanned, no flag is set, each program's next scan is its first, every task goes down, and the
    /// continuous one is released.
    fn run(&mut self) -> Outcome
        requires { IsLive self.old }
        ensures gives { (n : ℕ) (s : State) → RepresentsParts n self.old s → Gives n self.new result (ran s) }
        ensures only_marked { ChangesOnlyMarked self.old.image self.new.image }
    {
        let released = mask_of(self.table.released_at_run());
        prescan_all(&self.book, self.firsts.len(), &mut self.image);
        self.leave_scans();
        clear_flags(&mut self.progress);
        mark_all(&mut self.firsts);
        self.table.start(self.tick);
        self.mode = Mode::Run;
        Outcome {
            reply: Reply::Done,
            fault: None,
            released,
        }
    }

    /// The change to Program: `Held` comes while a CPS is in progress, then M2 if the controller is Faulted, and M1 if it is in
    /// Program.
    pub fn mode_program(&mut self) -> Outcome
        requires { IsLive self.old }
        ensures gives { (n : ℕ) (s : State) → RepresentsParts n self.old s → Gives n self.new result (mode_program s) }
        ensures image { self.new.image ≡ self.old.image }
    {
        if self.table.held() {
            return replied(Reply::Held);
        }
        match self.mode {
            Mode::Program => replied(Reply::Mode(ModeFault::M1)),
            Mode::Run => self.stop(),
            Mode::Faulted => replied(Reply::Mode(ModeFault::M2)),
        }
    }

    /// Every task goes down and drops its scan.
    fn stop(&mut self) -> Outcome
        requires { IsLive self.old }
        ensures gives { (n : ℕ) (s : State) → RepresentsParts n self.old s → Gives n self.new result (acted (to_program s) Reply.Done) }
        ensures image { self.new.image ≡ self.old.image }
    {
        self.leave_scans();
        self.table.stop();
        self.mode = Mode::Program;
        replied(Reply::Done)
    }

    /// From Faulted to Program: `Held` comes while a CPS is in progress, then M3 if the controller isn't Faulted.
    pub fn clear(&mut self) -> Outcome
        requires { IsLive self.old }
        ensures gives { (n : ℕ) (s : State) → RepresentsParts n self.old s → Gives n self.new result (clear s) }
        ensures image { self.new.image ≡ self.old.image }
    {
        if self.table.held() {
            return replied(Reply::Held);
        }
        match self.mode {
            Mode::Faulted => {
                self.mode = Mode::Program;
                replied(Reply::Done)
            }
            Mode::Program | Mode::Run => replied(Reply::Mode(ModeFault::M3)),
        }
    }
}
