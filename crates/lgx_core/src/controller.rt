// The controller, with its processor step, its tick and its actions.
use lgx_edit::Plant;
use lgx_num::Memory;
use lgx_steps::{Begins, ControllerParts, Stretch};
use spec_machine::{Action, Moment, Outcome, TickReport};
use std::alloc::Global;
use std::marker::Model;

/// A controller that runs a project.
///
/// It counts its events: the processor steps, the ticks and the actions, refused and held ones too. It can count
/// `MAX_EVENTS`. Only an accept takes memory, once the controller is made.
pub struct Controller {
    pub(crate) parts: Box<ControllerParts>,
    pub(crate) spent: u32,
}

impl Drop for Controller {
    fn drop(self) {
        let Controller { parts: _, spent: _ } = self;
    }
}

impl Model for Controller {
    ghost use Rattle.std.specs.Coded.{codes, coded_list};
    ghost use Rattle.lgx_edit.specs.Codes.{view_code};
    ghost use Rattle.lgx_core.specs.ControllerView.{ControllerView};
    ghost use Rattle.lgx_core.specs.Codes.{controller_code};

    ghost Value = { ControllerView };

    ghost coded = { controller_code (coded_list (view_code (Prim.hlevel codes) (Prim.hlevel codes) (Prim.hlevel codes))) (Prim.hlevel codes) };

    ghost use Rattle.lgx_core.specs.ControllerView.{view_of};
    ghost use Rattle.lgx_core.specs.Represents.{IsController};

    ghost view = { λ c. view_of c.parts.value c.spent };

    ghost invariant = { λ c. IsController (view_of c.parts.value c.spent) };
}

impl Controller {
    ghost use Rattle.std.specs.Prelude.{◌≡◌, ◌+◌, ◌<◌, ◌≤◌, true, [], IfOk, IfErr, IsTrue};
    ghost use Rattle.spec_base.specs.declared.limits.TheConstants.{MAX_EVENTS};
    ghost use Rattle.spec_machine.specs.Events.{is_accept};
    ghost use Rattle.spec_machine.specs.Machine.{OfStep, OfTick, OfAction};
    ghost use Rattle.spec_machine.specs.State.{State};
    ghost use Rattle.spec_machine.specs.ProcessorStep.{processor_step};
    ghost use Rattle.spec_machine.specs.Ticks.{tick};
    ghost use Rattle.spec_machine.specs.Actions.{act};
    ghost use Rattle.lgx_image.specs.Grains.{ChangesOnlyMarked, SomeIsHit};
    ghost use Rattle.lgx_steps.specs.Stretches.{IsRefused, is_plain, is_told};
    ghost use Rattle.lgx_core.specs.Represents.{RepresentsController, StandsFor, IsController, GoesOn, GoesOnBy};
    ghost use Rattle.lgx_core.specs.Gives.{Gives, StretchGives};
    ghost use Rattle.spec_laws.specs.Lawful.{IsLawful};

    /// A controller in Program at tick 0, with no task up. It takes all room but that of accepts.
    ///
    /// Whatever its events will be, they keep every law of `IsLawful`: of the schedule, of scans, of what is shown and of edits.
    pub fn new(alloc: Global, project: Plant) -> Result<Controller, Memory>
        ensures stands { IfOk result (λ controller. StandsFor project [] controller) }
        ensures laws { IfOk result (λ _. IsLawful project) }
    {
        let parts = ControllerParts::new(alloc, project)?;
        let boxed = Box::new(alloc, parts)?;
        Ok(Controller {
            parts: boxed,
            spent: 0,
        })
    }

    /// One processor step.
    #[inline(always)]
    pub fn cpu(&mut self) -> Moment
        requires room { self.old.spent < MAX_EVENTS }
        ensures step { (s : State) → RepresentsController self.old s → Gives self.new result (processor_step s) }
        ensures runs { GoesOn self.old self.new (OfStep result) }
        ensures spent { self.new.spent ≡ self.old.spent + 1 }
        ensures only_marked { ChangesOnlyMarked self.old.parts.image self.new.parts.image }
    {
        self.spent += 1;
        self.parts.cpu()
    }

    /// Processor steps, up to one that has a fault or triggers a task, or after which a word of the image is hit, or to a begin that
    /// `begins` can't note; at most `most`. It does what as many calls of [`Controller::cpu`] do, and counts each of them.
    ///
    /// A hit that was there before ends it too, so hits are to be cleared first. While no task is up, all of them are made at once.
    /// What `begins` noted before is lost.
    #[inline(always)]
    pub fn stretch(&mut self, most: u32, begins: &mut Begins) -> Stretch
        requires some { 0 < most }
        requires room { self.old.spent + most ≤ MAX_EVENTS }
        ensures step { (s : State) → RepresentsController self.old s → StretchGives self.new begins.new result s }
        ensures runs { GoesOnBy self.old self.new result }
        ensures some { 0 < result.steps }
        ensures most { result.steps ≤ most }
        ensures full { result.steps < most → is_plain result.last ≡ true → SomeIsHit self.new.parts.image }
        ensures refused { result.steps < most → is_told result.last.what ≡ true → IsRefused begins.new result.last.what }
        ensures spent { self.new.spent ≡ self.old.spent + result.steps }
        ensures only_marked { ChangesOnlyMarked self.old.parts.image self.new.parts.image }
    {
        let made = self.parts.stretch(most, begins);
        self.spent += made.steps;
        made
    }

    /// One tick.
    #[inline(always)]
    pub fn tick(&mut self) -> TickReport
        requires room { self.old.spent < MAX_EVENTS }
        ensures step { (s : State) → RepresentsController self.old s → Gives self.new result (tick s) }
        ensures runs { GoesOn self.old self.new (OfTick result) }
        ensures spent { self.new.spent ≡ self.old.spent + 1 }
        ensures only_marked { ChangesOnlyMarked self.old.parts.image self.new.parts.image }
    {
        self.spent += 1;
        self.parts.tick()
    }

    /// An action of a lane, whose its edits are. Out of memory comes at an accept alone; then it is no event,
    /// and nothing changes.
    pub fn act(&mut self, lane: u32, action: &Action) -> Result<Outcome, Memory>
        requires room { self.old.spent < MAX_EVENTS }
        ensures step { (s : State) → RepresentsController self.old s → IfOk result (λ outcome. Gives self.new outcome (act s lane action.now)) }
        ensures runs { IfOk result (λ outcome. GoesOn self.old self.new (OfAction lane action.now outcome)) }
        ensures spent { IfOk result (λ _. self.new.spent ≡ self.old.spent + 1) }
        ensures memory { IfErr result (λ _. IsTrue (is_accept action.now)) }
        ensures unchanged { IfErr result (λ _. self.new ≡ self.old) }
        ensures only_marked { ChangesOnlyMarked self.old.parts.image self.new.parts.image }
    {
        match self.parts.act(lane, action) {
            Ok(outcome) => {
                self.spent += 1;
                Ok(outcome)
            }
            Err(memory) => Err(memory),
        }
    }

    /// Every controller stands for a run of a valid project, so that the laws of runs are laws of it.
    pub fn law_of_runs(&self)
        ensures { IsController self.now }
    {
        let _ = &self.parts;
    }
}
