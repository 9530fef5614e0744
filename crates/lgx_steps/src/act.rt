// The actions of modules and engineers.
ghost use Rattle.std.specs.Prelude.{◌≡◌, ℕ, ◌+◌, IfOk, IfErr, IsTrue};
ghost use Rattle.spec_machine.specs.Events.{is_accept};
ghost use Rattle.spec_machine.specs.State.{State};
ghost use Rattle.spec_machine.specs.Actions.{act};
ghost use Rattle.lgx_image.specs.Grains.{ChangesOnlyMarked};
ghost use Rattle.lgx_steps.specs.Represents.{RepresentsParts, IsLive};
ghost use Rattle.lgx_steps.specs.Gives.{Gives};

use crate::modes::replied;
use crate::parts::ControllerParts;
use lgx_num::Memory;
use spec_machine::{Action, Outcome};

impl ControllerParts {
    /// What a lane does, whose its edits are. Only an accept takes memory; out of memory, nothing changes.
    pub fn act(&mut self, lane: u32, action: &Action) -> Result<Outcome, Memory>
        requires { IsLive self.old }
        ensures gives { (n : ℕ) (s : State) → RepresentsParts n self.old s → IfOk result (λ outcome. Gives (n + 1) self.new outcome (act s lane action.now)) }
        ensures memory { IfErr result (λ _. IsTrue (is_accept action.now)) }
        ensures unchanged { IfErr result (λ _. self.new ≡ self.old) }
        ensures only_marked { ChangesOnlyMarked self.old.image self.new.image }
    {
        match action {
            Action::WordIn { conn, word, value } => Ok(self.word_in(conn, *word, *value)),
            Action::WordOut { conn, word } => Ok(replied(self.word_out(conn, *word))),
            Action::Accept(command) => self.accept(lane, command),
            Action::Test(program) => Ok(self.test(lane, program)),
            Action::Untest(program) => Ok(self.untest(lane, program)),
            Action::Assemble(program) => Ok(self.assemble(lane, program)),
            Action::Cancel(program) => Ok(self.cancel(lane, program)),
            Action::ForceInstall {
                conn,
                word,
                mask,
                value,
            } => Ok(self.install_force(conn, *word, *mask, *value)),
            Action::ForceEnable => Ok(self.enable_forces()),
            Action::ForceDisable => Ok(self.disable_forces()),
            Action::ForceRemove => Ok(self.remove_forces()),
            Action::ModeRun => Ok(self.mode_run()),
            Action::ModeProgram => Ok(self.mode_program()),
            Action::Clear => Ok(self.clear()),
        }
    }
}
