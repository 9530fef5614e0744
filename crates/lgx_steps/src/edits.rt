// The edit commands.
ghost use Rattle.std.specs.Prelude.{◌≡◌, ℕ, ◌+◌, IfOk, IfErr};
ghost use Rattle.spec_machine.specs.Edits.{accept, on_accepted, test, untest, assemble, cancel};
ghost use Rattle.spec_machine.specs.State.{State};
ghost use Rattle.spec_machine.specs.Actions.{edit_replied};
ghost use Rattle.lgx_steps.specs.Represents.{RepresentsParts, IsLive};
ghost use Rattle.lgx_steps.specs.Gives.{Gives, edit_outcome, refusal_of};

use crate::modes::replied;
use crate::parts::ControllerParts;
use lgx_edit::EditError;
use lgx_num::{Memory, Name};
use spec_machine::{Accept, EditFault, Outcome, Reply};

/// The answer to an edit command.
fn answered(done: Result<(), EditFault>) -> Outcome
    ensures { result ≡ edit_outcome done }
{
    match done {
        Ok(()) => replied(Reply::Done),
        Err(fault) => replied(Reply::Edit(fault)),
    }
}

/// The answer to an accept that isn't done. Out of memory is none.
fn refusal(error: EditError) -> Result<Outcome, Memory>
    ensures { result ≡ refusal_of error }
{
    match error {
        EditError::Edit(fault) => Ok(replied(Reply::Edit(fault))),
        EditError::Memory => Err(Memory),
    }
}

impl ControllerParts {
    /// Adds edits to a program's accepted ones, and answers the accept's number. See [`lgx_edit::EditBook::accept`] for its
    /// refusals. Out of memory, nothing changes.
    pub fn accept(&mut self, lane: u32, command: &Accept) -> Result<Outcome, Memory>
        requires { IsLive self.old }
        ensures gives { (n : ℕ) (s : State) → RepresentsParts n self.old s → IfOk result (λ outcome. Gives (n + 1) self.new outcome (edit_replied s (accept s.plan.tags s.plan.names s.books lane command.now))) }
        ensures unchanged { IfErr result (λ _. self.new ≡ self.old) }
        ensures image { self.new.image ≡ self.old.image }
    {
        let done = self.book.accept(self.alloc, lane, command, &self.tags, self.names.as_slice());
        match done {
            Ok(number) => Ok(replied(Reply::Version(number))),
            Err(error) => refusal(error),
        }
    }

    /// Selects a program's merged rungs, from its next begin on. See [`lgx_edit::EditBook::test`] for its refusals.
    pub fn test(&mut self, lane: u32, program: &Name) -> Outcome
        requires { IsLive self.old }
        ensures gives { (n : ℕ) (s : State) → RepresentsParts n self.old s → Gives n self.new result (edit_replied s (on_accepted test s.books lane program.now)) }
        ensures image { self.new.image ≡ self.old.image }
    {
        let done = self.book.test(lane, program);
        answered(done)
    }

    /// Selects a program's base rungs, from its next begin on. See [`lgx_edit::EditBook::untest`] for its refusals.
    pub fn untest(&mut self, lane: u32, program: &Name) -> Outcome
        requires { IsLive self.old }
        ensures gives { (n : ℕ) (s : State) → RepresentsParts n self.old s → Gives n self.new result (edit_replied s (on_accepted untest s.books lane program.now)) }
        ensures image { self.new.image ≡ self.old.image }
    {
        let done = self.book.untest(lane, program);
        answered(done)
    }

    /// Makes a program's merged rungs its base. See [`lgx_edit::EditBook::assemble`] for its refusals.
    pub fn assemble(&mut self, lane: u32, program: &Name) -> Outcome
        requires { IsLive self.old }
        ensures gives { (n : ℕ) (s : State) → RepresentsParts n self.old s → Gives n self.new result (edit_replied s (on_accepted assemble s.books lane program.now)) }
        ensures image { self.new.image ≡ self.old.image }
    {
        let done = self.book.assemble(lane, program);
        answered(done)
    }

    /// Drops a program's accepted edits. See [`lgx_edit::EditBook::cancel`] for its refusals.
    pub fn cancel(&mut self, lane: u32, program: &Name) -> Outcome
        requires { IsLive self.old }
        ensures gives { (n : ℕ) (s : State) → RepresentsParts n self.old s → Gives n self.new result (edit_replied s (on_accepted cancel s.books lane program.now)) }
        ensures image { self.new.image ≡ self.old.image }
    {
        let done = self.book.cancel(lane, program);
        answered(done)
    }
}
