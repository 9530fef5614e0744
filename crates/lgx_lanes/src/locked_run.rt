// What is under the lock: the recorder with the history of its journal, and the books of what the passes counted.
ghost use Rattle.std.specs.Prelude.{◌≡◌, ◌+◌, ◌<◌, ◌^◌, true, length, sum, sum_by, vec_len, slice_index_or, All, IfSome, IfNone, IsSome};
ghost use mathlib.Core.List.{IsPrefix};
ghost use Rattle.spec_machine.specs.Events.{steps_of};
ghost use Rattle.spec_lanes.specs.Turns.{lane_of, IsAcceptAt, is_spent};
ghost use Rattle.spec_lanes.specs.Laws.{opening};
ghost use Rattle.lgx_history.specs.Histories.{history_view};
ghost use Rattle.lgx_lanes.specs.Turns.{MatchTurn};
ghost use Rattle.lgx_lanes.specs.Progress.{IsUnderWay};
ghost use Rattle.lgx_lanes.specs.Serves.{Serves, Adds};
ghost use Rattle.lgx_lanes.specs.Seen.{Tells, done_in};

use crate::front::LaneFront;
use crate::input::Input;
use crate::pass::{Pass, merged};
use crate::recorded::Recorded;
use crate::turn::Turn;
use lgx_history::History;
use std::marker::{Model, PhantomData};
use std::sync::ledger::{Book, Ledger};

/// A ledger that has one part for each lane of the named script, and one for the processor.
#[derive(Drop)]
struct HasParts<I: Input, L: Ledger> {
    input: PhantomData<I>,
    ledger: PhantomData<L>,
    ghost fits: { L.parts ≡ length I.script.lanes + 1 },
}

/// That a ledger has these parts.
fn fitting<I: Input, L: Ledger>() -> HasParts<I, L>
    requires { L.parts ≡ length I.script.lanes + 1 }
{
    HasParts {
        input: PhantomData,
        ledger: PhantomData,
    }
}

/// A turn of a lane, which has made as many actions as stand in what the front has seen. The front sees it.
fn make<I: Input, R: Recorded<I>>(
    recorder: &mut R,
    history: &mut History,
    front: &mut LaneFront<I>,
    lane: u32,
) -> Turn
    requires history { history.old ≡ history_view I.history (R.progress recorder.old).events }
    requires counted { done_in I.script lane front.old.events ≡ slice_index_or (R.progress recorder.old).counts lane 0 }
    ensures history { history.new ≡ history_view I.history (R.progress recorder.new).events }
    ensures serves { Serves I.project I.script lane (R.progress recorder.old) result (R.progress recorder.new) }
    ensures adds { Adds I.project I.script (R.progress recorder.old) result (R.progress recorder.new) }
    ensures tells { Tells I.project I.script lane front.old.events result front.new.events }
    ensures counts { let before = done_in I.script lane front.old.events in let after = done_in I.script lane front.new.events in MatchTurn result
        (after ≡ before + 1)
        (after ≡ before)
        ((after ≡ before) × (before ≡ length (lane_of I.script lane)))
        ((after ≡ before) × IsAcceptAt I.script lane before) }
{
    let turn = recorder.serve(lane);
    front.see(history, recorder);
    turn
}

/// The recorder, with the totals of the actions that the passes made, of their processor steps and of their ends. Contracts see the
/// recorder.
#[derive(Drop)]
pub(crate) struct LockedRun<I: Input, R: Recorded<I>, A: Ledger, S: Ledger, E: Ledger> {
    recorder: R,
    history: History,
    actions: Book<A>,
    steps: Book<S>,
    ends: Book<E>,
    action_parts: HasParts<I, A>,
    step_parts: HasParts<I, S>,
    end_parts: HasParts<I, E>,
}

impl<I: Input, R: Recorded<I>, A: Ledger, S: Ledger, E: Ledger> Model for LockedRun<I, R, A, S, E> {
    ghost use Rattle.std.specs.Prelude.{◌≡◌};
    ghost use Rattle.lgx_history.specs.Histories.{history_view};
    ghost use Rattle.lgx_lanes.specs.Progress.{AreBooked};

    ghost Value = { R };

    ghost coded = { R.code };

    ghost view = { λ l. l.recorder };

    ghost invariant = { λ l. (l.history ≡ history_view I.history (R.progress l.recorder).events) × AreBooked I.project I.script (R.progress l.recorder) l.actions.total l.steps.total l.ends.total };
}

impl<I: Input, R: Recorded<I>, A: Ledger, S: Ledger, E: Ledger> LockedRun<I, R, A, S, E> {
    /// A recorder that was just made, with books that have counted nothing.
    pub(crate) fn new(
        recorder: R,
        history: History,
        actions: Book<A>,
        steps: Book<S>,
        ends: Book<E>,
    ) -> LockedRun<I, R, A, S, E>
        requires under_way { IsUnderWay I.project I.script (R.progress recorder) }
        requires opened { (R.progress recorder).events ≡ opening }
        requires history { history ≡ history_view I.history (R.progress recorder).events }
        requires books { (actions.total ≡ 0) × (steps.total ≡ 0) × (ends.total ≡ 0) }
        requires parts { (A.parts ≡ length I.script.lanes + 1) × (S.parts ≡ length I.script.lanes + 1) × (E.parts ≡ length I.script.lanes + 1) }
    {
        LockedRun {
            recorder,
            history,
            actions,
            steps,
            ends,
            action_parts: fitting(),
            step_parts: fitting(),
            end_parts: fitting(),
        }
    }

    /// A turn of the pass's lane, which is counted; none where the lock is to be waited for again, and then nothing changed. That
    /// comes only if the pass has counted another number of actions than are in the journal.
    pub(crate) fn turn(&mut self, pass: &mut Pass<I, A, S, E>) -> Option<Turn>
        requires room { (pass.old.actions + 1 < 2 ^ 32) × (pass.old.steps + 1 < 2 ^ 32) × (pass.old.ends ≡ 0) }
        ensures serves { IfSome result (λ turn. Serves I.project I.script pass.old.lane (R.progress self.old) turn (R.progress self.new)) }
        ensures again { IfNone result ((pass.new ≡ pass.old) × (self.new ≡ self.old)) }
        ensures sure { pass.old.actions ≡ done_in I.script pass.old.lane (R.progress self.old).events → IsSome result }
        ensures tells { IfSome result (λ turn. Tells I.project I.script pass.old.lane pass.old.front.events turn pass.new.front.events) }
        ensures lane { (pass.new.lane ≡ pass.old.lane) × (pass.new.length ≡ pass.old.length) × (pass.new.least_steps ≡ pass.old.least_steps) }
        ensures counts { IfSome result (λ turn. MatchTurn turn
            ((pass.new.actions ≡ pass.old.actions + 1) × (pass.new.steps ≡ pass.old.steps) × (pass.new.ends ≡ 0) × (pass.new.short ≡ pass.old.short))
            ((pass.new.actions ≡ pass.old.actions) × (pass.new.steps ≡ pass.old.steps + 1) × (pass.new.ends ≡ 0) × (pass.new.short ≡ pass.old.short))
            ((pass.new.actions ≡ pass.old.actions) × (pass.new.steps ≡ pass.old.steps) × (pass.new.ends ≡ 1) × (pass.new.short ≡ pass.old.short))
            ((pass.new.actions ≡ pass.old.actions) × (pass.new.steps ≡ pass.old.steps) × (pass.new.ends ≡ 0) × (pass.new.short ≡ true) × IsAcceptAt I.script pass.old.lane pass.old.actions)) }
    {
        if self.recorder.made(pass.lane) != pass.actions {
            return None;
        }
        let LockedRun {
            recorder,
            history,
            ..
        } = self;
        let turn = make(recorder, history, &mut pass.front, pass.lane);
        match turn {
            Turn::Did => {
                self.actions.add(&mut pass.action_share, 1);
                pass.actions += 1;
            }
            Turn::Helped => {
                self.steps.add(&mut pass.step_share, 1);
                pass.steps += 1;
            }
            Turn::Done => {
                self.ends.add(&mut pass.end_share, 1);
                pass.ends += 1;
            }
            Turn::Memory => pass.short = true,
        }
        Some(turn)
    }

    /// The recorder, once all passes are back, and with them all parts of the ledgers and all sights of the history.
    pub(crate) fn close(self, passes: Vec<Pass<I, A, S, E>>) -> R
        requires parts { (vec_len passes ≡ A.parts) × (vec_len passes ≡ S.parts) × (vec_len passes ≡ E.parts) }
        ensures under_way { IsUnderWay I.project I.script (R.progress result) }
        ensures sees { All (λ p. IsPrefix p.front.events (R.progress result).events) passes.items }
        ensures actions { sum (R.progress result).counts ≡ sum_by (λ p. p.actions) passes.items }
        ensures steps { steps_of (R.progress result).events ≡ sum_by (λ p. p.steps) passes.items }
        ensures spent { 0 < sum_by (λ p. p.ends) passes.items → is_spent I.project I.script (R.progress result).events ≡ true }
        ensures fits { A.parts ≡ length I.script.lanes + 1 }
    {
        let LockedRun {
            recorder,
            mut history,
            actions: mut action_book,
            steps: mut step_book,
            ends: mut end_book,
            action_parts,
            step_parts: _,
            end_parts: _,
        } = self;
        let HasParts {
            input: _,
            ledger: _,
        } = action_parts;
        let (mut actions, mut steps, mut ends) = merged(passes, &mut history, &recorder);
        action_book.audit(&mut actions);
        step_book.audit(&mut steps);
        end_book.audit(&mut ends);
        let _ = recorder.journal();
        recorder
    }
}
