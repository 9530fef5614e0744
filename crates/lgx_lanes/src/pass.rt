// What a lane's thread carries.
ghost use Rattle.std.specs.Prelude.{◌≡◌, ◌+◌, ◌≤◌, ◌<◌, true, false, length, vec_len, slice_index_or, sum_by, All, IsTrue, ◌↔◌, ℕ};
ghost use mathlib.Core.List.{IsPrefix};
ghost use Rattle.spec_base.specs.declared.limits.TheConstants.{MAX_ACTIONS, MAX_SCRIPT_STEPS};
ghost use Rattle.spec_lanes.specs.Turns.{lane_of};
ghost use Rattle.lgx_history.specs.Histories.{history_view};
ghost use Rattle.lgx_lanes.specs.Lanes.{most_turns};
ghost use Rattle.lgx_lanes.specs.Seen.{front_view, HasSeen, done_in};

use crate::front::LaneFront;
use crate::input::Input;
use crate::recorded::Recorded;
use lgx_history::History;
use spec_base::limits::MAX_IMAGE_BYTES;
use std::marker::PhantomData;
use std::sync::ledger::{Ledger, Share};

/// A lane's leave to make turns: its part of each ledger, and what it counted in it.
///
/// The last pass is the processor's: its lane is the script's number of lanes, which has no actions.
#[derive(Drop)]
pub struct Pass<I: Input, A: Ledger, S: Ledger, E: Ledger> {
    /// The lane's number.
    pub lane: u32,
    /// How many actions the script has for it.
    pub length: u32,
    /// How many processor steps the script wants at least.
    pub least_steps: u32,
    /// The actions that turns of this pass made.
    pub actions: u32,
    /// The processor steps that they made.
    pub steps: u32,
    /// The ends that they counted: one at most.
    pub ends: u32,
    /// Whether a turn of this pass was answered with want of memory.
    pub(crate) short: bool,
    /// What it has seen of the journal.
    pub(crate) front: LaneFront<I>,
    pub(crate) action_share: Share<A>,
    pub(crate) step_share: Share<S>,
    pub(crate) end_share: Share<E>,
    input: PhantomData<I>,
    ghost length_is: { length ≡ Rattle.std.specs.Prelude.length (lane_of I.script lane) },
    ghost few_actions: { length ≤ MAX_ACTIONS },
    ghost least_steps_are: { least_steps ≡ I.script.steps },
    ghost few_steps: { least_steps ≤ MAX_SCRIPT_STEPS },
    ghost action_part: { action_share.parts ≡ 1 },
    ghost step_part: { step_share.parts ≡ 1 },
    ghost end_part: { end_share.parts ≡ 1 },
    ghost actions_are: { action_share.amount ≡ actions },
    ghost steps_are: { step_share.amount ≡ steps },
    ghost ends_are: { end_share.amount ≡ ends },
    ghost sees_actions: { done_in I.script lane front.events ≡ actions },
    ghost one_end: { ends ≤ 1 },
    ghost whole: { ends ≡ 1 → actions ≡ length },
}

impl<I: Input, A: Ledger, S: Ledger, E: Ledger> Pass<I, A, S, E> {
    /// A pass that has counted nothing.
    pub(crate) fn new(
        lane: u32,
        length: u32,
        least_steps: u32,
        front: LaneFront<I>,
        action_share: Share<A>,
        step_share: Share<S>,
        end_share: Share<E>,
    ) -> Pass<I, A, S, E>
        requires length { length ≡ Rattle.std.specs.Prelude.length (lane_of I.script lane) }
        requires few { length ≤ MAX_ACTIONS }
        requires steps { least_steps ≡ I.script.steps }
        requires few_steps { least_steps ≤ MAX_SCRIPT_STEPS }
        requires front { done_in I.script lane front.events ≡ 0 }
        requires parts { (action_share.parts ≡ 1) × (step_share.parts ≡ 1) × (end_share.parts ≡ 1) }
        requires amounts { (action_share.amount ≡ 0) × (step_share.amount ≡ 0) × (end_share.amount ≡ 0) }
        ensures lane { result.lane ≡ lane }
        ensures front { result.front ≡ front }
        ensures counts { (result.actions ≡ 0) × (result.steps ≡ 0) × (result.ends ≡ 0) × (result.short ≡ false) }
    {
        Pass {
            lane,
            length,
            least_steps,
            actions: 0,
            steps: 0,
            ends: 0,
            short: false,
            front,
            action_share,
            step_share,
            end_share,
            input: PhantomData,
        }
    }

    /// Gives back its sight of the history, whose events are the journal's, and its shares of the ledgers of actions, of processor
    /// steps and of ends.
    fn give_back<R: Recorded<I>>(
        self,
        history: &mut History,
        recorder: &R,
    ) -> (Share<A>, Share<S>, Share<E>)
        requires { history.old ≡ history_view I.history (R.progress recorder.now).events }
        ensures same { history.new ≡ history.old }
        ensures seen { IsPrefix self.front.events (R.progress recorder.now).events }
        ensures parts { (result.0.parts ≡ 1) × (result.1.parts ≡ 1) × (result.2.parts ≡ 1) }
        ensures amounts { (result.0.amount ≡ self.actions) × (result.1.amount ≡ self.steps) × (result.2.amount ≡ self.ends) }
    {
        let Pass {
            lane: _,
            length: _,
            least_steps: _,
            actions: _,
            steps: _,
            ends: _,
            short: _,
            front,
            action_share,
            step_share,
            end_share,
            input: _,
        } = self;
        front.give_back(history, recorder);
        (action_share, step_share, end_share)
    }

    /// What every pass keeps: it has counted just the actions of its lane in the journal that it has seen.
    pub(crate) fn law_of_passes(&self)
        ensures { HasSeen I.project I.script (front_view self.now.lane self.now.actions self.now.front.events) }
    {
        self.front.law_of_fronts();
    }

    /// Whether a turn of this pass was answered with want of memory.
    pub fn is_short(&self) -> bool
        ensures { result ≡ self.now.short }
    {
        self.short
    }

    /// How many turns this pass may make at most.
    pub(crate) fn most_turns(&self) -> u32
        ensures { result ≡ most_turns self.now.length self.now.least_steps }
    {
        self.length + self.least_steps + MAX_IMAGE_BYTES + 1
    }

    /// Whether the pass came to its end, was short of memory, or made as many turns as it may.
    fn has_come(&self) -> bool
        ensures { IsTrue result ↔ (self.now.ends ≡ 0 → self.now.short ≡ false → most_turns self.now.length self.now.least_steps ≤ self.now.actions + self.now.steps) }
    {
        let made = u64::from(self.actions) + u64::from(self.steps);
        self.ends == 1 || self.short || u64::from(self.most_turns()) <= made
    }
}

/// Whether every pass came to its end, was short of memory, or made as many turns as it may.
pub(crate) fn all_came<I: Input, A: Ledger, S: Ledger, E: Ledger>(
    passes: &Vec<Pass<I, A, S, E>>,
) -> bool
    ensures { IsTrue result ↔ ((i : ℕ) (d : _) → i < vec_len passes.now → let p = slice_index_or passes.now.items i d in p.ends ≡ 0 → p.short ≡ false → most_turns p.length p.least_steps ≤ p.actions + p.steps) }
{
    for pass in passes {
        if !pass.has_come() {
            return false;
        }
    }
    true
}

/// The shares of all passes as one of each ledger. Each pass gives back its sight of the history, whose events are the journal's.
pub(crate) fn merged<I: Input, R: Recorded<I>, A: Ledger, S: Ledger, E: Ledger>(
    passes: Vec<Pass<I, A, S, E>>,
    history: &mut History,
    recorder: &R,
) -> (Share<A>, Share<S>, Share<E>)
    requires some { 0 < vec_len passes }
    requires history { history.old ≡ history_view I.history (R.progress recorder.now).events }
    ensures same { history.new ≡ history.old }
    ensures sees { All (λ p. IsPrefix p.front.events (R.progress recorder.now).events) passes.items }
    ensures parts { (result.0.parts ≡ vec_len passes) × (result.1.parts ≡ vec_len passes) × (result.2.parts ≡ vec_len passes) }
    ensures amounts { (result.0.amount ≡ sum_by (λ p. p.actions) passes.items) × (result.1.amount ≡ sum_by (λ p. p.steps) passes.items) × (result.2.amount ≡ sum_by (λ p. p.ends) passes.items) }
{
    let mut passes = passes;
    let Some(last) = passes.pop() else {
        unreachable!()
    };
    let (mut actions, mut steps, mut ends) = last.give_back(history, recorder);
    while let Some(pass) = passes.pop() {
        let (action_share, step_share, end_share) = pass.give_back(history, recorder);
        actions.merge(action_share);
        steps.merge(step_share);
        ends.merge(end_share);
    }
    (actions, steps, ends)
}
