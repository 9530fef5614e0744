// A controller on its way through a script's journals, as a node.
ghost use Rattle.std.specs.Prelude.{◌≡◌, ◌+◌, ◌<◌, ◌++◌, ◌∷◌, [], ℕ, List, true, false, IfOk, IfErr, IfSome};
ghost use Rattle.spec_base.specs.declared.limits.TheConstants.{MAX_EVENTS};
ghost use Rattle.spec_machine.specs.declared.event.Event.{Event as Events};
ghost use Rattle.spec_machine.specs.declared.event.Event.TheVariants.{Act};
ghost use Rattle.spec_machine.specs.Machine.{step, run};
ghost use Rattle.spec_machine.specs.Project.{Project};
ghost use Rattle.spec_lanes.specs.Turns.{is_spent, ticks_of};
ghost use Rattle.spec_explore.specs.Questions.{holds_some, IsFirstLine};
ghost use Rattle.spec_explore.specs.Layers.{AreClear};
ghost use Rattle.lgx_core.specs.Represents.{StandsFor};
ghost use Rattle.lgx_explore.specs.declared.node.Next.TheVariants as next;
ghost use Rattle.lgx_explore.specs.Shown.{IfShown};
ghost use Rattle.lgx_walker.specs.Lines.{step_events, StepShows};
ghost use Rattle.lgx_walker.specs.Late.{SomeIsLate, NoneIsLate};
ghost use Rattle.lgx_walker.specs.Walks.{Watches, Walks};

use crate::due::{count_of, due_action, law_of_scripts};
use crate::late::is_some_late;
use crate::mark::mark_of;
use crate::places::same_places;
use crate::trail::Trail;
use crate::valued::ValuedController;
use lgx_explore::{Next, Node, Stop};
use lgx_journal::{Action, Script};
use lgx_question::Question;
use spec_base::limits::MAX_EVENTS;
use std::alloc::Global;

/// A controller with the way that led to it. It stands for every journal that leads to the same state with as many actions of
/// each lane, and keeps one of them. `mark` is a number of its controller's image, which tells most states apart at once.
pub struct Walker {
    pub(crate) trail: Trail,
    pub(crate) watcher: ValuedController,
    pub(crate) mark: u64,
}

impl Drop for Walker {
    fn drop(self) {
        let Walker {
            trail: _,
            watcher: _,
            mark: _,
        } = self;
    }
}

/// Whether two lists of numbers are the same.
fn same_numbers(numbers: &[u32], others: &[u32]) -> bool
    ensures { result ≡ true → numbers.now ≡ others.now }
{
    if numbers.len() != others.len() {
        return false;
    }
    for i in 0..numbers.len() {
        if numbers[i] != others[i] {
            return false;
        }
    }
    true
}

/// The watcher after an action of a lane, after which no line holds.
fn acted_on(
    alloc: Global,
    watcher: &ValuedController,
    question: &Question,
    lane: u32,
    action: &Action,
) -> Result<ValuedController, Stop>
    ensures watches { IfOk result (λ after. (p : Project) (journal : List Events) → Watches watcher.now p journal → Watches after p (journal ++ Act lane action.now ∷ [])) }
    ensures clear { IfOk result (λ _. (p : Project) (journal : List Events) → Watches watcher.now p journal → holds_some p question.now (step (run p journal) (Act lane action.now)) ≡ false) }
    ensures shown { IfErr result (λ stop. IfShown stop (λ made line. (made ≡ next.Action lane) × ((p : Project) (journal : List Events) → Watches watcher.now p journal → IsFirstLine p question.now (step (run p journal) (Act lane action.now)) line))) }
{
    if watcher.controller.spent() >= MAX_EVENTS {
        return Err(Stop::Limit);
    }
    let mut after = watcher.copied(alloc)?;
    match after.act(question, lane, action)? {
        Some(line) => Err(Stop::Shown(Next::Action(lane), line)),
        None => Ok(after),
    }
}

/// A processor step, with its tick if it has one.
fn step_on(watcher: &mut ValuedController, question: &Question, has_tick: bool) -> Result<(), Stop>
    requires { watcher.old.controller.spent + 1 < MAX_EVENTS }
    ensures watches { IfOk result (λ _. (p : Project) (journal : List Events) → Watches watcher.old p journal → Watches watcher.new p (journal ++ step_events has_tick)) }
    ensures clear { IfOk result (λ _. (p : Project) (journal : List Events) → Watches watcher.old p journal → AreClear p question.now (run p journal) (step_events has_tick)) }
    ensures shown { IfErr result (λ stop. IfShown stop (λ made line. (p : Project) (journal : List Events) → Watches watcher.old p journal → StepShows p question.now journal has_tick made line)) }
{
    if let Some(line) = watcher.cpu(question)? {
        return Err(Stop::Shown(Next::Step, line));
    }
    if !has_tick {
        return Ok(());
    }
    match watcher.tick(question)? {
        Some(line) => Err(Stop::Shown(Next::Tick, line)),
        None => Ok(()),
    }
}

/// Whether the script's steps were made and no CPS is open.
fn is_spent(walker: &Walker, script: &Script) -> bool
    ensures { (p : Project) (counts : List ℕ) (journal : List Events) → Walks walker.now p counts journal → result ≡ is_spent p script.now journal }
{
    walker.trail.steps >= script.steps && !walker.watcher.controller.copy_open()
}

/// Whether a step would make an action late: its tick would, if it has one.
fn is_late_by_step(walker: &Walker, script: &Script, within: Option<u32>, has_tick: bool) -> bool
    ensures has_tick { result ≡ true → has_tick ≡ true }
    ensures some { result ≡ true → (p : Project) (journal : List Events) → Watches walker.now.watcher p journal → SomeIsLate within script.now walker.now.trail.counts (ticks_of journal + 1) }
    ensures none { result ≡ false → has_tick ≡ true → (p : Project) (journal : List Events) → Watches walker.now.watcher p journal → NoneIsLate within script.now walker.now.trail.counts (ticks_of journal + 1) }
{
    if !has_tick {
        return false;
    }
    let tick = walker.watcher.controller.now() as u64;
    is_some_late(script, within, walker.trail.counts.as_slice(), tick + 1)
}

/// Whether an action is late at the present tick, by how many actions each lane made.
fn is_late_now(
    watcher: &ValuedController,
    script: &Script,
    within: Option<u32>,
    counts: &[u32],
) -> bool
    ensures some { result ≡ true → (p : Project) (journal : List Events) → Watches watcher.now p journal → SomeIsLate within script.now counts.now (ticks_of journal) }
    ensures none { result ≡ false → (p : Project) (journal : List Events) → Watches watcher.now p journal → NoneIsLate within script.now counts.now (ticks_of journal) }
{
    is_some_late(script, within, counts, watcher.controller.now() as u64)
}

impl Node for Walker {
    ghost use Rattle.lgx_walker.specs.Walks.{Walks, walked};

    ghost stands = { Walks };

    ghost keeps = { walked };

    fn is_same(&self, other: &Self) -> bool {
        self.mark == other.mark
            && self.trail.steps == other.trail.steps
            && same_numbers(self.trail.counts.as_slice(), other.trail.counts.as_slice())
            && self.watcher.controller.is_same(&other.watcher.controller)
            && same_places(
                self.watcher.places.as_slice(),
                other.watcher.places.as_slice(),
            )
    }

    fn acted(
        &self,
        alloc: Global,
        script: &Script,
        question: &Question,
        lane: u32,
    ) -> Result<Option<Self>, Stop> {
        law_of_scripts(script);
        let done = count_of(self.trail.counts.as_slice(), lane);
        let Some(action) = due_action(script, lane, done, &self.watcher.controller) else {
            return Ok(None);
        };
        let Some(trail) = self.trail.with_action(alloc, lane)? else {
            return Err(Stop::Limit);
        };
        if is_late_now(
            &self.watcher,
            script,
            question.within,
            trail.counts.as_slice(),
        ) {
            return Ok(None);
        }
        let mut watcher = acted_on(alloc, &self.watcher, question, lane, action)?;
        watcher.forget_marks();
        let mark = mark_of(&watcher.controller);
        Ok(Some(Walker {
            trail,
            watcher,
            mark,
        }))
    }

    fn step(&mut self, script: &Script, question: &Question) -> Result<bool, Stop> {
        law_of_scripts(script);
        if is_spent(self, script) {
            return Ok(false);
        }
        if !self.trail.has_room() {
            return Err(Stop::Limit);
        }
        if self.watcher.controller.spent() >= MAX_EVENTS - 1 {
            return Err(Stop::Limit);
        }
        let has_tick = (self.trail.steps + 1) % script.pace == 0;
        if is_late_by_step(self, script, question.within, has_tick) {
            return Ok(false);
        }
        step_on(&mut self.watcher, question, has_tick)?;
        self.watcher.forget_marks();
        self.trail.add_step();
        self.mark = mark_of(&self.watcher.controller);
        Ok(true)
    }
}
