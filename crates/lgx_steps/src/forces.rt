// The four commands on forces.
ghost use Rattle.std.specs.Prelude.{◌≡◌, ℕ, Ok};
ghost use Rattle.spec_tables.specs.Connections.{io_word};
ghost use Rattle.spec_tables.specs.Forces.{enable, disable, remove_all};
ghost use Rattle.spec_machine.specs.State.{State};
ghost use Rattle.spec_machine.specs.Actions.{force_replied, install_on};
ghost use Rattle.lgx_steps.specs.Represents.{RepresentsParts, IsLive};
ghost use Rattle.lgx_steps.specs.Gives.{Gives, force_outcome};

use crate::modes::replied;
use crate::parts::ControllerParts;
use lgx_force::ForceFault;
use lgx_num::Name;
use spec_machine::{Outcome, Reply};

/// The answer to a command on forces.
fn answered(done: Result<(), ForceFault>) -> Outcome
    ensures { result ≡ force_outcome done }
{
    match done {
        Ok(()) => replied(Reply::Done),
        Err(fault) => replied(Reply::Force(fault)),
    }
}

impl ControllerParts {
    /// Installs a force on a word of a connection: F1 comes if there is no such word, F2 if as many other words have a force as
    /// may.
    pub fn install_force(&mut self, conn: &Name, word: u32, mask: i32, value: i32) -> Outcome
        requires { IsLive self.old }
        ensures gives { (n : ℕ) (s : State) → RepresentsParts n self.old s → Gives n self.new result (force_replied s (install_on s.forces (io_word s.plan.conns conn.now word) mask value)) }
        ensures image { self.new.image ≡ self.old.image }
    {
        match self.conns.io_word(conn, word) {
            Some(io) => {
                let done = self.forces.install(io, mask, value);
                answered(done)
            }
            None => replied(Reply::Force(ForceFault::F1)),
        }
    }

    /// Enables the forces: F3 comes if none is installed.
    pub fn enable_forces(&mut self) -> Outcome
        requires { IsLive self.old }
        ensures gives { (n : ℕ) (s : State) → RepresentsParts n self.old s → Gives n self.new result (force_replied s (enable s.forces)) }
        ensures image { self.new.image ≡ self.old.image }
    {
        let done = self.forces.enable();
        answered(done)
    }

    /// Disables the forces.
    pub fn disable_forces(&mut self) -> Outcome
        requires { IsLive self.old }
        ensures gives { (n : ℕ) (s : State) → RepresentsParts n self.old s → Gives n self.new result (force_replied s (Ok (disable s.forces))) }
        ensures image { self.new.image ≡ self.old.image }
    {
        self.forces.disable();
        replied(Reply::Done)
    }

    /// Removes all forces and disables them: F3 comes if none is installed.
    pub fn remove_forces(&mut self) -> Outcome
        requires { IsLive self.old }
        ensures gives { (n : ℕ) (s : State) → RepresentsParts n self.old s → Gives n self.new result (force_replied s (remove_all s.forces)) }
        ensures image { self.new.image ≡ self.old.image }
    {
        let done = self.forces.remove_all();
        answered(done)
    }
}
