// The recorder under its lock.
ghost use Rattle.std.specs.Prelude.{◌≡◌, ℕ, ◌+◌, ◌<◌, ◌≤◌, ◌^◌, true, false, length, sum, sum_by, [], Some, vec_len, slice_index_or, All, IfOk, IsTrue, ◌↔◌};
ghost use mathlib.Core.List.{IsPrefix};
ghost use Rattle.spec_machine.specs.Events.{steps_of};
ghost use Rattle.spec_lanes.specs.Turns.{IsAcceptAt};
ghost use Rattle.spec_lanes.specs.Laws.{opening};
ghost use Rattle.lgx_history.specs.Histories.{history_view};
ghost use Rattle.lgx_lanes.specs.Turns.{MatchTurn};
ghost use Rattle.lgx_shared.specs.Follows.{journal_of, Follows, IsNew, HasSpent, HasCompleted};
ghost use Rattle.lgx_lanes.specs.Seen.{front_view, HasSeen, Tells};
ghost use Rattle.lgx_lanes.specs.Lanes.{most_turns};

use crate::recorder::Recorder;
use crate::recorder_of::{RecorderOf, begun};
use lgx_lanes::{Input, Pass, Turn};
use lgx_num::Memory;
use std::alloc::Global;
use std::sync::Wait;
use std::sync::ledger::{Blank, Ledger};

/// A recorder that threads share under one lock, each by turns of its pass.
pub struct Shared<I: Input, A: Ledger, S: Ledger, E: Ledger> {
    pub(crate) lanes: lgx_lanes::Shared<I, RecorderOf<I>, A, S, E>,
}

impl<I: Input, A: Ledger, S: Ledger, E: Ledger> Shared<I, A, S, E> {
    /// The recorder under a lock, with a pass for each lane of its script and, last, one for the processor. The recorder was
    /// just made, and has the named history; the blanks are those of the ledgers of actions, of processor steps and of ends, with a part for each pass. At
    /// out of memory the recorder is dropped.
    pub fn share(
        alloc: Global,
        recorder: Recorder,
        actions: Blank,
        steps: Blank,
        ends: Blank,
    ) -> Result<(Shared<I, A, S, E>, Vec<Pass<I, A, S, E>>), Memory>
        requires recorder { IsNew I.project I.script recorder }
        requires history { recorder.history ≡ Some (history_view I.history []) }
        requires actions { (actions.name ≡ A.name) × (actions.parts ≡ A.parts) × (actions.parts ≡ length I.script.lanes + 1) }
        requires steps { (steps.name ≡ S.name) × (steps.parts ≡ S.parts) × (steps.parts ≡ length I.script.lanes + 1) }
        requires ends { (ends.name ≡ E.name) × (ends.parts ≡ E.parts) × (ends.parts ≡ length I.script.lanes + 1) }
        ensures len { IfOk result (λ r. vec_len r.1 ≡ length I.script.lanes + 1) }
        ensures lanes { IfOk result (λ r. (i : ℕ) (d : _) → i < vec_len r.1 → (slice_index_or r.1.items i d).lane ≡ i) }
        ensures seen { IfOk result (λ r. All (λ p. p.front.events ≡ opening) r.1.items) }
        ensures counts { IfOk result (λ r. (i : ℕ) (d : _) → i < vec_len r.1 → let p = slice_index_or r.1.items i d in (p.actions ≡ 0) × (p.steps ≡ 0) × (p.ends ≡ 0) × (p.short ≡ false)) }
    {
        let (named, history) = begun(recorder);
        let (lanes, passes) = lgx_lanes::Shared::share(
            alloc, named, history, actions, steps, ends,
        )?;
        Ok((Shared { lanes }, passes))
    }

    /// One turn of the pass's lane under the lock: at `Did` the pass's count of actions rises by one, at `Helped` that of its
    /// processor steps, at `Done` that of its ends, and at `Memory`, which comes where its next action is an accept, it is
    /// short. It may wait for the lock, and waits again only if the pass counted another number of actions than are in the journal.
    /// The pass sees the journal that the turn found, which begins with all that the pass had seen, and what the turn appended to
    /// it; of its lane this has just the actions that the pass made.
    pub fn turn<R: Wait>(&self, rt: &R, pass: &mut Pass<I, A, S, E>) -> Turn
        requires room { (pass.old.actions + 1 < 2 ^ 32) × (pass.old.steps + 1 < 2 ^ 32) × (pass.old.ends ≡ 0) }
        ensures tells { Tells I.project I.script pass.old.lane pass.old.front.events result pass.new.front.events }
        ensures own { HasSeen I.project I.script (front_view pass.new.lane pass.new.actions pass.new.front.events) }
        ensures lane { (pass.new.lane ≡ pass.old.lane) × (pass.new.length ≡ pass.old.length) × (pass.new.least_steps ≡ pass.old.least_steps) }
        ensures counts { MatchTurn result
            ((pass.new.actions ≡ pass.old.actions + 1) × (pass.new.steps ≡ pass.old.steps) × (pass.new.ends ≡ 0) × (pass.new.short ≡ pass.old.short))
            ((pass.new.actions ≡ pass.old.actions) × (pass.new.steps ≡ pass.old.steps + 1) × (pass.new.ends ≡ 0) × (pass.new.short ≡ pass.old.short))
            ((pass.new.actions ≡ pass.old.actions) × (pass.new.steps ≡ pass.old.steps) × (pass.new.ends ≡ 1) × (pass.new.short ≡ pass.old.short))
            ((pass.new.actions ≡ pass.old.actions) × (pass.new.steps ≡ pass.old.steps) × (pass.new.ends ≡ 0) × (pass.new.short ≡ true) × IsAcceptAt I.script pass.old.lane pass.old.actions) }
    {
        self.lanes.turn(rt, pass)
    }

    /// The recorder, once all passes are back, each at the place of its lane. It has run where every pass came to its end, was
    /// short of memory, or made as many turns as it may. What any pass has seen is a beginning of the recorder's journal: so of
    /// two passes, one has seen a beginning of what the other has.
    pub fn close(self, passes: Vec<Pass<I, A, S, E>>) -> Recorder
        requires parts { (vec_len passes ≡ A.parts) × (vec_len passes ≡ S.parts) × (vec_len passes ≡ E.parts) }
        requires lanes { (i : ℕ) (d : _) → i < vec_len passes → (slice_index_or passes.items i d).lane ≡ i }
        ensures follows { Follows I.project I.script result }
        ensures sees { All (λ p. IsPrefix p.front.events (journal_of result)) passes.items }
        ensures actions { sum result.counts ≡ sum_by (λ p. p.actions) passes.items }
        ensures steps { steps_of (journal_of result) ≡ sum_by (λ p. p.steps) passes.items }
        ensures spent { (i : ℕ) (d : _) → i < vec_len passes → (slice_index_or passes.items i d).ends ≡ 1 → HasSpent I.project I.script result }
        ensures complete { ((i : ℕ) (d : _) → i < vec_len passes → (slice_index_or passes.items i d).ends ≡ 1) → HasCompleted I.project I.script result }
        ensures ran { IsTrue result.ran ↔ ((i : ℕ) (d : _) → i < vec_len passes → let p = slice_index_or passes.items i d in p.ends ≡ 0 → p.short ≡ false → most_turns p.length p.least_steps ≤ p.actions + p.steps) }
    {
        let Shared { lanes } = self;
        let (named, ran) = lanes.close(passes);
        named.into_recorder(ran)
    }
}
