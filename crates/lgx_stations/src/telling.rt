// A journal that is replayed, and published to a board.
ghost use Rattle.std.specs.Prelude.{◌≡◌, List, ◌∷◌, ◌++◌, OnOk, length, replicate};
ghost use Rattle.spec_machine.specs.declared.event.Event.{Event as Events};
ghost use Rattle.spec_story.specs.Snapshots.{snapshots};
ghost use Rattle.lgx_stations.specs.Asking.{ForPublishes};
ghost use Rattle.lgx_stations.specs.Reports.{Reports};
ghost use Rattle.lgx_stations.specs.Telling.{IsAt};

use crate::input::{JournalInput, Tells};
use crate::reported::Reported;
use lgx_hmi::Board;
use lgx_journal::{Event, Journal};
use lgx_lanes::Gate;
use lgx_num::Memory;
use std::sync::Wait;

/// One event, which is published if it is a tick.
fn tell_event<I: JournalInput, G: Gate, R: Wait>(
    rt: &R,
    gate: &G,
    lane: u32,
    reported: &mut Reported,
    board: &mut Board<Tells<I>>,
    event: &Event,
) -> Result<(), Memory>
    requires { (left : List Events) × IsAt I.project I.journal reported.old board.old (event.now ∷ left) }
    ensures at { (left : List Events) → IsAt I.project I.journal reported.old board.old (event.now ∷ left) → OnOk result (IsAt I.project I.journal reported.new board.new left) }
    ensures publishes { ForPublishes (λ k. G.asked gate.now lane k) (length board.old) (length board.new) }
{
    reported.take(event)?;
    if let Event::Tick = event {
        let snapshot = reported.snapshot();
        // Ticks are counted from 1, what is published from 0.
        gate.before(lane, snapshot.tick.saturating_sub(1));
        board.publish(rt, &snapshot)?;
    }
    Ok(())
}

/// An event `count` times, which is published each time if it is a tick.
fn tell_run<I: JournalInput, G: Gate, R: Wait>(
    rt: &R,
    gate: &G,
    lane: u32,
    reported: &mut Reported,
    board: &mut Board<Tells<I>>,
    event: &Event,
    count: u32,
) -> Result<(), Memory>
    requires { (left : List Events) × IsAt I.project I.journal reported.old board.old (replicate count event.now ++ left) }
    ensures at { (left : List Events) → IsAt I.project I.journal reported.old board.old (replicate count event.now ++ left) → OnOk result (IsAt I.project I.journal reported.new board.new left) }
    ensures publishes { ForPublishes (λ k. G.asked gate.now lane k) (length board.old) (length board.new) }
{
    for _ in 0..count {
        tell_event(rt, gate, lane, reported, board, event)?;
    }
    Ok(())
}

/// A whole journal, of which each tick is published.
pub(crate) fn tell_journal<I: JournalInput, G: Gate, R: Wait>(
    rt: &R,
    gate: &G,
    lane: u32,
    reported: &mut Reported,
    board: &mut Board<Tells<I>>,
    journal: &Journal,
) -> Result<(), Memory>
    requires { IsAt I.project I.journal reported.old board.old journal.now.events }
    ensures records { OnOk result (Reports reported.new I.project I.journal) }
    ensures told { OnOk result (board.new ≡ snapshots I.project I.journal) }
    ensures publishes { ForPublishes (λ k. G.asked gate.now lane k) (length board.old) (length board.new) }
{
    for i in 0..journal.runs() {
        let (event, count) = (journal.event_at(i), journal.count_at(i));
        tell_run(rt, gate, lane, reported, board, event, count)?;
    }
    Ok(())
}
