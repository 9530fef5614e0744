// The journal of a trail, and of what is shown after it.
ghost use Rattle.std.specs.Prelude.{◌≡◌, ◌+◌, ◌<◌, ◌≤◌, ◌++◌, ◌∷◌, [], length, slice_get, IfOk};
ghost use Rattle.spec_base.specs.declared.limits.TheConstants.{MAX_EVENTS};
ghost use Rattle.spec_machine.specs.Events.{steps_of};
ghost use Rattle.spec_lanes.specs.Turns.{lane_of};
ghost use Rattle.lgx_walker.specs.Lines.{step_events};
ghost use Rattle.lgx_walker.specs.Trails.{act_of, with_steps, with_placed, journal_of, next_events};

use crate::due::{action_at, count_of};
use crate::trail::{Placed, Trail};
use lgx_explore::Next;
use lgx_journal::{Action, Event, Journal, Script};
use lgx_num::Memory;
use spec_base::limits::OWN_LANE;
use std::alloc::Global;

/// Puts an event last.
fn add_event(journal: &mut Journal, event: Event) -> Result<(), Memory>
    requires { length journal.old.events < MAX_EVENTS }
    ensures { IfOk result (λ _. journal.new.events ≡ journal.old.events ++ event ∷ []) }
{
    journal.reserve(1)?;
    journal.add(event);
    Ok(())
}

/// Puts a processor step last, with its tick if it has one.
fn add_step(journal: &mut Journal, has_tick: bool) -> Result<(), Memory>
    requires { length journal.old.events + 1 < MAX_EVENTS }
    ensures { IfOk result (λ _. journal.new.events ≡ journal.old.events ++ step_events has_tick) }
{
    add_event(journal, Event::Cpu)?;
    if has_tick {
        add_event(journal, Event::Tick)?;
    }
    Ok(())
}

/// Puts `count` processor steps last, each with its tick if it has one. The journal has `done` steps before them.
fn add_steps(journal: &mut Journal, script: &Script, done: u32, count: u32) -> Result<(), Memory>
    requires done { done ≡ steps_of journal.old.events }
    requires few { length (with_steps script.now journal.old.events count) + 2 ≤ MAX_EVENTS }
    ensures { IfOk result (λ _. journal.new.events ≡ with_steps script.now journal.old.events count) }
{
    for k in 0..count {
        add_step(journal, (done + k + 1) % script.pace == 0)?;
    }
    Ok(())
}

/// Puts an action of a lane last, if the lane has it.
fn add_act(
    alloc: Global,
    journal: &mut Journal,
    script: &Script,
    lane: u32,
    index: u32,
) -> Result<(), Memory>
    requires { length journal.old.events < MAX_EVENTS }
    ensures { IfOk result (λ _. journal.new.events ≡ journal.old.events ++ act_of lane (slice_get (lane_of script.now lane) index)) }
{
    match action_at(script, lane, index) {
        Some(timed) => {
            let action = timed.action.copied(alloc)?;
            add_event(journal, Event::Act(lane, action))
        }
        None => Ok(()),
    }
}

/// Puts the steps before an action and the action last. The journal has `done` steps before them.
fn add_placed(
    alloc: Global,
    journal: &mut Journal,
    script: &Script,
    done: u32,
    placed: Placed,
) -> Result<(), Memory>
    requires done { done ≡ steps_of journal.old.events }
    requires few { length (with_placed script.now journal.old.events placed) + 2 ≤ MAX_EVENTS }
    ensures { IfOk result (λ _. journal.new.events ≡ with_placed script.now journal.old.events placed) }
{
    add_steps(journal, script, done, placed.since)?;
    add_act(alloc, journal, script, placed.lane, placed.index)
}

/// The journal that a trail describes. Out of memory is the one fault.
pub(crate) fn journal_of(alloc: Global, script: &Script, trail: &Trail) -> Result<Journal, Memory>
    requires { length (journal_of script.now trail.now.placed trail.now.since) + 2 ≤ MAX_EVENTS }
    ensures { IfOk result (λ journal. journal.events ≡ journal_of script.now trail.now.placed trail.now.since) }
{
    let mut journal = Journal::new(alloc);
    add_event(&mut journal, Event::Act(OWN_LANE, Action::ModeRun))?;
    let mut done = 0;
    for placed in trail.placed.as_slice() {
        add_placed(alloc, &mut journal, script, done, *placed)?;
        done += placed.since;
    }
    add_steps(&mut journal, script, done, trail.since)?;
    Ok(journal)
}

/// The journal that a trail describes, with what may be made next.
pub(crate) fn journal_with(
    alloc: Global,
    script: &Script,
    trail: &Trail,
    made: Next,
) -> Result<Journal, Memory>
    requires { length (journal_of script.now trail.now.placed trail.now.since) + 2 ≤ MAX_EVENTS }
    ensures { IfOk result (λ journal. journal.events ≡ journal_of script.now trail.now.placed trail.now.since ++ next_events script.now trail.now made) }
{
    let mut journal = journal_of(alloc, script, trail)?;
    match made {
        Next::Action(lane) => {
            let index = count_of(trail.counts.as_slice(), lane);
            add_act(alloc, &mut journal, script, lane, index)?;
        }
        Next::Step => add_step(&mut journal, false)?,
        Next::Tick => add_step(&mut journal, true)?,
    }
    Ok(journal)
}
