// Actions by calls of their own, for callers without a journal: a recorder calls `act` alone.
ghost use Rattle.std.specs.Prelude.{◌≡◌, ℕ, ◌+◌, ◌<◌, true, IfOk, IfErr, IsTrue};
ghost use Rattle.spec_base.specs.declared.limits.TheConstants.{MAX_EVENTS};
ghost use Rattle.spec_machine.specs.Events.{is_accept};
ghost use Rattle.spec_machine.specs.Machine.{OfAction};
ghost use Rattle.spec_machine.specs.State.{State};
ghost use Rattle.spec_machine.specs.Actions.{act, word_in, word_out, mode_run, mode_program, clear};
ghost use Rattle.lgx_image.specs.Grains.{ChangesOnlyMarked};
ghost use Rattle.lgx_steps.specs.Gives.{replied_by};
ghost use Rattle.lgx_core.specs.Represents.{RepresentsController, GoesOn};
ghost use Rattle.lgx_core.specs.Gives.{Gives, is_edit, is_force};

use crate::controller::Controller;
use lgx_num::{Memory, Name};
use spec_machine::{Action, Outcome, Reply};

impl Controller {
    /// An I/O word comes in. `Held` comes while a CPS is in progress; else N1 at an unknown connection, N2 at a word out of range,
    /// N3 at an output.
    pub fn word_in(&mut self, conn: &Name, word: u32, value: i32) -> Outcome
        requires room { self.old.spent < MAX_EVENTS }
        ensures step { (s : State) → RepresentsController self.old s → Gives self.new result (word_in s conn.now word value) }
        ensures runs { (lane : ℕ) → GoesOn self.old self.new (OfAction lane (Action.WordIn conn.now word value) result) }
        ensures spent { self.new.spent ≡ self.old.spent + 1 }
        ensures only_marked { ChangesOnlyMarked self.old.parts.image self.new.parts.image }
    {
        self.spent += 1;
        self.parts.word_in(conn, word, value)
    }

    /// An I/O word goes out. It is no event. `Held` comes while a CPS is in progress; else N1 at an unknown connection, N2 at a word
    /// out of range, N3 at an input.
    pub fn word_out(&self, conn: &Name, word: u32) -> Reply
        ensures { (s : State) → RepresentsController self.now s → result ≡ (word_out s conn.now word).answer.reply }
    {
        self.parts.word_out(conn, word)
    }

    /// The change to Run. `Held` comes while a CPS is in progress, then M2 if the controller is Faulted, and M1 if it is in Run.
    pub fn mode_run(&mut self) -> Outcome
        requires room { self.old.spent < MAX_EVENTS }
        ensures step { (s : State) → RepresentsController self.old s → Gives self.new result (mode_run s) }
        ensures runs { (lane : ℕ) → GoesOn self.old self.new (OfAction lane Action.ModeRun result) }
        ensures spent { self.new.spent ≡ self.old.spent + 1 }
        ensures only_marked { ChangesOnlyMarked self.old.parts.image self.new.parts.image }
    {
        self.spent += 1;
        self.parts.mode_run()
    }

    /// The change to Program. `Held` comes while a CPS is in progress, then M2 if the controller is Faulted, and M1 if it is in
    /// Program.
    pub fn mode_program(&mut self) -> Outcome
        requires room { self.old.spent < MAX_EVENTS }
        ensures step { (s : State) → RepresentsController self.old s → Gives self.new result (mode_program s) }
        ensures runs { (lane : ℕ) → GoesOn self.old self.new (OfAction lane Action.ModeProgram result) }
        ensures spent { self.new.spent ≡ self.old.spent + 1 }
        ensures only_marked { ChangesOnlyMarked self.old.parts.image self.new.parts.image }
    {
        self.spent += 1;
        self.parts.mode_program()
    }

    /// From Faulted to Program. `Held` comes while a CPS is in progress, then M3 if the controller isn't Faulted.
    pub fn clear(&mut self) -> Outcome
        requires room { self.old.spent < MAX_EVENTS }
        ensures step { (s : State) → RepresentsController self.old s → Gives self.new result (clear s) }
        ensures runs { (lane : ℕ) → GoesOn self.old self.new (OfAction lane Action.Clear result) }
        ensures spent { self.new.spent ≡ self.old.spent + 1 }
        ensures only_marked { ChangesOnlyMarked self.old.parts.image self.new.parts.image }
    {
        self.spent += 1;
        self.parts.clear()
    }

    /// One of the five edit commands. Out of memory comes at an accept alone; then it is no event, and nothing changes.
    pub fn edit(&mut self, lane: u32, action: &Action) -> Result<Reply, Memory>
        requires room { self.old.spent < MAX_EVENTS }
        requires edit { is_edit action.now ≡ true }
        ensures step { (s : State) → RepresentsController self.old s → IfOk result (λ reply. Gives self.new (replied_by reply) (act s lane action.now)) }
        ensures runs { IfOk result (λ reply. GoesOn self.old self.new (OfAction lane action.now (replied_by reply))) }
        ensures spent { IfOk result (λ _. self.new.spent ≡ self.old.spent + 1) }
        ensures memory { IfErr result (λ _. IsTrue (is_accept action.now)) }
        ensures unchanged { IfErr result (λ _. self.new ≡ self.old) }
        ensures only_marked { ChangesOnlyMarked self.old.parts.image self.new.parts.image }
    {
        match self.act(lane, action) {
            Ok(outcome) => Ok(outcome.reply),
            Err(memory) => Err(memory),
        }
    }

    /// One of the four commands on forces.
    pub fn force(&mut self, action: &Action) -> Reply
        requires room { self.old.spent < MAX_EVENTS }
        requires force { is_force action.now ≡ true }
        ensures step { (lane : ℕ) (s : State) → RepresentsController self.old s → Gives self.new (replied_by result) (act s lane action.now) }
        ensures runs { (lane : ℕ) → GoesOn self.old self.new (OfAction lane action.now (replied_by result)) }
        ensures spent { self.new.spent ≡ self.old.spent + 1 }
        ensures only_marked { ChangesOnlyMarked self.old.parts.image self.new.parts.image }
    {
        match self.act(0, action) {
            Ok(outcome) => outcome.reply,
            Err(_) => unreachable!(),
        }
    }
}
