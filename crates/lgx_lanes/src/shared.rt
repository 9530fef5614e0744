// The recorder under its lock.
ghost use Rattle.std.specs.Prelude.{◌≡◌, ℕ, ◌+◌, ◌<◌, ◌≤◌, ◌^◌, true, false, length, sum, sum_by, vec_len, slice_index_or, All, IfOk, IsTrue, ◌↔◌};
ghost use mathlib.Core.List.{IsPrefix};
ghost use Rattle.spec_machine.specs.Events.{steps_of};
ghost use Rattle.spec_schedule.specs.Partial.{IsComplete};
ghost use Rattle.spec_lanes.specs.Turns.{IsAcceptAt, is_spent};
ghost use Rattle.spec_lanes.specs.Laws.{opening};
ghost use Rattle.lgx_history.specs.Histories.{history_view};
ghost use Rattle.lgx_lanes.specs.Turns.{MatchTurn};
ghost use Rattle.lgx_lanes.specs.Progress.{IsUnderWay};
ghost use Rattle.lgx_lanes.specs.Seen.{front_view, HasSeen, Tells};
ghost use Rattle.lgx_lanes.specs.Lanes.{most_turns};

use crate::front::LaneFront;
use crate::input::Input;
use crate::locked_run::LockedRun;
use crate::pass::{Pass, all_came};
use crate::recorded::Recorded;
use crate::turn::Turn;
use lgx_history::History;
use lgx_num::Memory;
use std::alloc::Global;
use std::sync::ledger::{Blank, Ledger, Share};
use std::sync::{Mutex, Wait};

/// A pass for each lane of the script and, last, one for the processor, from the whole shares of the ledgers.
fn deal<I: Input, R: Recorded<I>, A: Ledger, S: Ledger, E: Ledger>(
    alloc: Global,
    recorder: &R,
    history: &mut History,
    mut actions: Share<A>,
    mut steps: Share<S>,
    mut ends: Share<E>,
) -> Result<Vec<Pass<I, A, S, E>>, Memory>
    requires under_way { IsUnderWay I.project I.script (R.progress recorder.now) }
    requires none { sum (R.progress recorder.now).counts ≡ 0 }
    requires history { history.old ≡ history_view I.history (R.progress recorder.now).events }
    requires parts { (actions.parts ≡ length I.script.lanes + 1) × (steps.parts ≡ length I.script.lanes + 1) × (ends.parts ≡ length I.script.lanes + 1) }
    requires amounts { (actions.amount ≡ 0) × (steps.amount ≡ 0) × (ends.amount ≡ 0) }
    ensures same { history.new ≡ history.old }
    ensures len { IfOk result (λ r. vec_len r ≡ length I.script.lanes + 1) }
    ensures lanes { IfOk result (λ r. (i : ℕ) (d : _) → i < vec_len r → (slice_index_or r.items i d).lane ≡ i) }
    ensures seen { IfOk result (λ r. All (λ p. p.front.events ≡ (R.progress recorder.now).events) r.items) }
    ensures counts { IfOk result (λ r. (i : ℕ) (d : _) → i < vec_len r → let p = slice_index_or r.items i d in (p.actions ≡ 0) × (p.steps ≡ 0) × (p.ends ≡ 0) × (p.short ≡ false)) }
{
    let count = recorder.lanes() + 1;
    let mut passes = Vec::new(alloc);
    for lane in 0..count {
        let pass = Pass::new(
            lane,
            recorder.length_of(lane),
            recorder.least_steps(),
            LaneFront::new(history, recorder),
            actions.split_off(1, 0),
            steps.split_off(1, 0),
            ends.split_off(1, 0),
        );
        passes.push(pass)?;
    }
    Ok(passes)
}

/// A recorder that threads share under one lock, each by turns of its pass.
pub struct Shared<I: Input, R: Recorded<I>, A: Ledger, S: Ledger, E: Ledger> {
    kept: Mutex<LockedRun<I, R, A, S, E>>,
}

impl<I: Input, R: Recorded<I>, A: Ledger, S: Ledger, E: Ledger> Shared<I, R, A, S, E> {
    /// The recorder under a lock, with a pass for each lane of its script and, last, one for the processor. The recorder was
    /// just made, and has the named history; the blanks are those of the ledgers of actions, of processor steps and of ends, with a part for each pass. At
    /// out of memory the recorder is dropped.
    pub fn share(
        alloc: Global,
        recorder: R,
        mut history: History,
        actions: Blank,
        steps: Blank,
        ends: Blank,
    ) -> Result<(Shared<I, R, A, S, E>, Vec<Pass<I, A, S, E>>), Memory>
        requires under_way { IsUnderWay I.project I.script (R.progress recorder) }
        requires opened { (R.progress recorder).events ≡ opening }
        requires history { history ≡ history_view I.history (R.progress recorder).events }
        requires actions { (actions.name ≡ A.name) × (actions.parts ≡ A.parts) × (actions.parts ≡ length I.script.lanes + 1) }
        requires steps { (steps.name ≡ S.name) × (steps.parts ≡ S.parts) × (steps.parts ≡ length I.script.lanes + 1) }
        requires ends { (ends.name ≡ E.name) × (ends.parts ≡ E.parts) × (ends.parts ≡ length I.script.lanes + 1) }
        ensures len { IfOk result (λ r. vec_len r.1 ≡ length I.script.lanes + 1) }
        ensures lanes { IfOk result (λ r. (i : ℕ) (d : _) → i < vec_len r.1 → (slice_index_or r.1.items i d).lane ≡ i) }
        ensures seen { IfOk result (λ r. All (λ p. p.front.events ≡ opening) r.1.items) }
        ensures counts { IfOk result (λ r. (i : ℕ) (d : _) → i < vec_len r.1 → let p = slice_index_or r.1.items i d in (p.actions ≡ 0) × (p.steps ≡ 0) × (p.ends ≡ 0) × (p.short ≡ false)) }
    {
        let (action_book, action_rest) = actions.open::<A>();
        let (step_book, step_rest) = steps.open::<S>();
        let (end_book, end_rest) = ends.open::<E>();
        let passes = deal(
            alloc,
            &recorder,
            &mut history,
            action_rest,
            step_rest,
            end_rest,
        )?;
        let kept = LockedRun::new(recorder, history, action_book, step_book, end_book);
        Ok((
            Shared {
                kept: Mutex::new(kept),
            },
            passes,
        ))
    }

    /// One turn of the pass's lane under the lock: at `Did` the pass's count of actions rises by one, at `Helped` that of its
    /// processor steps, at `Done` that of its ends, and at `Memory`, which comes where its next action is an accept, it is
    /// short. It may wait for the lock, and waits again only if the pass counted another number of actions than are in the journal.
    /// The pass sees the journal that the turn found, which begins with all that the pass had seen, and what the turn appended to
    /// it; of its lane this has just the actions that the pass made.
    pub fn turn<T: Wait>(&self, rt: &T, pass: &mut Pass<I, A, S, E>) -> Turn
        requires room { (pass.old.actions + 1 < 2 ^ 32) × (pass.old.steps + 1 < 2 ^ 32) × (pass.old.ends ≡ 0) }
        ensures tells { Tells I.project I.script pass.old.lane pass.old.front.events result pass.new.front.events }
        ensures own { HasSeen I.project I.script (front_view pass.new.lane pass.new.actions pass.new.front.events) }
        ensures lane { (pass.new.lane ≡ pass.old.lane) × (pass.new.length ≡ pass.old.length) × (pass.new.least_steps ≡ pass.old.least_steps) }
        ensures counts { MatchTurn result
            ((pass.new.actions ≡ pass.old.actions + 1) × (pass.new.steps ≡ pass.old.steps) × (pass.new.ends ≡ 0) × (pass.new.short ≡ pass.old.short))
            ((pass.new.actions ≡ pass.old.actions) × (pass.new.steps ≡ pass.old.steps + 1) × (pass.new.ends ≡ 0) × (pass.new.short ≡ pass.old.short))
            ((pass.new.actions ≡ pass.old.actions) × (pass.new.steps ≡ pass.old.steps) × (pass.new.ends ≡ 1) × (pass.new.short ≡ pass.old.short))
            ((pass.new.actions ≡ pass.old.actions) × (pass.new.steps ≡ pass.old.steps) × (pass.new.ends ≡ 0) × (pass.new.short ≡ true) × IsAcceptAt I.script pass.old.lane pass.old.actions) }
    {
        for _ in rt.forever() {
            let turn = self.kept.lock(rt).turn(pass);
            if let Some(turn) = turn {
                pass.law_of_passes();
                return turn;
            }
        }
        unreachable!()
    }

    /// The recorder, once all passes are back, each at the place of its lane, and whether it has run: so where every pass came to its end, was
    /// short of memory, or made as many turns as it may. What any pass has seen is a beginning of the recorder's journal: so of
    /// two passes, one has seen a beginning of what the other has.
    pub fn close(self, passes: Vec<Pass<I, A, S, E>>) -> (R, bool)
        requires parts { (vec_len passes ≡ A.parts) × (vec_len passes ≡ S.parts) × (vec_len passes ≡ E.parts) }
        requires lanes { (i : ℕ) (d : _) → i < vec_len passes → (slice_index_or passes.items i d).lane ≡ i }
        ensures under_way { IsUnderWay I.project I.script (R.progress result.0) }
        ensures sees { All (λ p. IsPrefix p.front.events (R.progress result.0).events) passes.items }
        ensures actions { sum (R.progress result.0).counts ≡ sum_by (λ p. p.actions) passes.items }
        ensures steps { steps_of (R.progress result.0).events ≡ sum_by (λ p. p.steps) passes.items }
        ensures spent { (i : ℕ) (d : _) → i < vec_len passes → (slice_index_or passes.items i d).ends ≡ 1 → is_spent I.project I.script (R.progress result.0).events ≡ true }
        ensures complete { ((i : ℕ) (d : _) → i < vec_len passes → (slice_index_or passes.items i d).ends ≡ 1) → IsComplete I.project I.script (R.progress result.0).events }
        ensures ran { IsTrue result.1 ↔ ((i : ℕ) (d : _) → i < vec_len passes → let p = slice_index_or passes.items i d in p.ends ≡ 0 → p.short ≡ false → most_turns p.length p.least_steps ≤ p.actions + p.steps) }
    {
        let Shared { kept } = self;
        let kept = kept.into_inner();
        let ran = all_came(&passes);
        (kept.close(passes), ran)
    }
}
