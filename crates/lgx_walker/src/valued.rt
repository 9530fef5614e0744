// A controller whose watched places are read after each event.
ghost use Rattle.std.specs.Prelude.{◌≡◌, ℕ, ◌+◌, ◌<◌, ◌∷◌, ◌++◌, [], List, IfOk, IfErr};
ghost use Rattle.spec_base.specs.declared.limits.TheConstants.{MAX_EVENTS};
ghost use Rattle.spec_machine.specs.declared.event.Event.{Event as Events};
ghost use Rattle.spec_machine.specs.declared.event.Event.TheVariants.{Cpu, Tick, Act};
ghost use Rattle.spec_machine.specs.Machine.{OfStep, step, run};
ghost use Rattle.spec_machine.specs.Project.{Project};
ghost use Rattle.spec_explore.specs.Questions.{ends_scan};
ghost use Rattle.lgx_question.specs.Seen.{is_program};
ghost use Rattle.lgx_explore.specs.Shown.{IfShown};
ghost use Rattle.lgx_walker.specs.Lines.{IsLineOf};
ghost use Rattle.lgx_walker.specs.Walks.{Watches};

use crate::places::{places_again, read_numbers};
use lgx_core::Controller;
use lgx_explore::Stop;
use lgx_journal::Action;
use lgx_num::{Items, Memory, Place};
use lgx_question::{Question, first_line};
use spec_base::limits::MAX_QUESTION_LINES;
use spec_machine::{Moment, What};
use std::alloc::Global;

/// A controller with the watched places of its project. `values` is room for the numbers that are there.
pub struct ValuedController {
    pub(crate) controller: Controller,
    pub(crate) places: Items<Place>,
    pub(crate) values: Vec<i32>,
}

impl Drop for ValuedController {
    fn drop(self) {
        let ValuedController {
            controller: _,
            places: _,
            values: _,
        } = self;
    }
}

/// The program whose scan ended with a processor step, if one did.
fn ended_by(moment: Moment) -> Option<u32>
    ensures { (q : ℕ) → ends_scan q (OfStep moment) ≡ is_program q result }
{
    match moment.what {
        What::Left {
            program,
            ended: true,
            ..
        } => Some(program),
        _ => None,
    }
}

impl ValuedController {
    /// The watcher once more.
    pub(crate) fn copied(&self, alloc: Global) -> Result<ValuedController, Memory>
        ensures controller { IfOk result (λ watcher. watcher.controller ≡ self.now.controller) }
        ensures places { IfOk result (λ watcher. watcher.places ≡ self.now.places) }
    {
        let places = places_again(alloc, self.places.as_slice())?;
        let values = Vec::with_capacity(alloc, self.places.len())?;
        let controller = self.controller.copied(alloc)?;
        Ok(ValuedController {
            controller,
            places,
            values,
        })
    }

    /// The first line of the question that holds now, after an event that ended the scan of the program `ended`, if it ended one.
    pub(crate) fn line(
        &mut self,
        question: &Question,
        ended: Option<u32>,
    ) -> Result<Option<u32>, Stop>
        ensures controller { self.new.controller ≡ self.old.controller }
        ensures places { self.new.places ≡ self.old.places }
        ensures line { IfOk result (λ o. (p : Project) (journal : List Events) (e : Events) → Watches self.old p (journal ++ e ∷ []) → ((q : ℕ) → ends_scan q (step (run p journal) e).answer ≡ is_program q ended) → IsLineOf p question.now (step (run p journal) e) o) }
        ensures shown { IfErr result (λ stop. IfShown stop (λ _ _. ⊥)) }
    {
        if question.lines.len() > MAX_QUESTION_LINES {
            return Err(Stop::Limit);
        }
        read_numbers(&self.controller, self.places.as_slice(), &mut self.values)?;
        Ok(first_line(question, &self.values, ended))
    }

    /// A processor step, and the first line that holds after it.
    pub(crate) fn cpu(&mut self, question: &Question) -> Result<Option<u32>, Stop>
        requires { self.old.controller.spent < MAX_EVENTS }
        ensures watches { (p : Project) (journal : List Events) → Watches self.old p journal → Watches self.new p (journal ++ Cpu ∷ []) }
        ensures line { IfOk result (λ o. (p : Project) (journal : List Events) → Watches self.old p journal → IsLineOf p question.now (step (run p journal) Cpu) o) }
        ensures shown { IfErr result (λ stop. IfShown stop (λ _ _. ⊥)) }
        ensures spent { self.new.controller.spent ≡ self.old.controller.spent + 1 }
    {
        let ended = ended_by(self.controller.cpu());
        self.line(question, ended)
    }

    /// A tick, and the first line that holds after it.
    pub(crate) fn tick(&mut self, question: &Question) -> Result<Option<u32>, Stop>
        requires { self.old.controller.spent < MAX_EVENTS }
        ensures watches { (p : Project) (journal : List Events) → Watches self.old p journal → Watches self.new p (journal ++ Tick ∷ []) }
        ensures line { IfOk result (λ o. (p : Project) (journal : List Events) → Watches self.old p journal → IsLineOf p question.now (step (run p journal) Tick) o) }
        ensures shown { IfErr result (λ stop. IfShown stop (λ _ _. ⊥)) }
    {
        let _ = self.controller.tick();
        self.line(question, None)
    }

    /// An action of a lane, and the first line that holds after it. After an error it stands for nothing.
    pub(crate) fn act(
        &mut self,
        question: &Question,
        lane: u32,
        action: &Action,
    ) -> Result<Option<u32>, Stop>
        requires { self.old.controller.spent < MAX_EVENTS }
        ensures watches { IfOk result (λ _. (p : Project) (journal : List Events) → Watches self.old p journal → Watches self.new p (journal ++ Act lane action.now ∷ [])) }
        ensures line { IfOk result (λ o. (p : Project) (journal : List Events) → Watches self.old p journal → IsLineOf p question.now (step (run p journal) (Act lane action.now)) o) }
        ensures shown { IfErr result (λ stop. IfShown stop (λ _ _. ⊥)) }
    {
        match self.controller.act(lane, action) {
            Ok(_) => self.line(question, None),
            Err(_) => Err(Stop::Memory),
        }
    }

    /// Takes the marks of what was written, which no event reads: controllers that differ in them alone are then the same.
    pub(crate) fn forget_marks(&mut self)
        ensures { (p : Project) (journal : List Events) → Watches self.old p journal → Watches self.new p journal }
    {
        self.controller.clear_marks();
    }
}
