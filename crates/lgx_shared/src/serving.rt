// What a turn of a lane is to do, and how it is done.
ghost use Rattle.std.specs.Prelude.{◌≡◌, ℕ, ◌+◌, ◌≤◌, ◌<◌, true, false, [], ◌∷◌, ◌++◌, List, length, vec_len, slice_index, option_copied, IsTrue};
ghost use Rattle.spec_base.specs.declared.limits.TheConstants.{MAX_ACTIONS, MAX_EVENTS};
ghost use Rattle.spec_machine.specs.declared.event.Event.{Event as Events};
ghost use Rattle.spec_machine.specs.declared.event.Event.TheVariants.{Act};
ghost use Rattle.spec_machine.specs.Events.{is_accept};
ghost use Rattle.spec_machine.specs.Project.{Project};
ghost use Rattle.spec_schedule.specs.Partial.{is_held_after};
ghost use Rattle.spec_lanes.specs.Turns.{done_by, is_due, due_action, is_spent, paced_step};
ghost use Rattle.spec_lanes.specs.Held.{is_holdable};
ghost use Rattle.spec_lanes.specs.Laws.{with_one_more};
ghost use Rattle.lgx_core.specs.Represents.{StandsFor};
ghost use Rattle.lgx_record.specs.Records.{Records, RecordsMore};
ghost use Rattle.lgx_lanes.specs.Turns.{MatchTurn};

use crate::plan::action_at;
use lgx_core::Controller;
use lgx_journal::{Action, EventsLent, Script, Timed};
use lgx_lanes::Turn;
use lgx_record::Recording;

/// Whether an action is answered Held while a CPS is open: an I/O word, or a command on the mode.
fn is_holdable(action: &Action) -> bool
    ensures { result ≡ is_holdable action.now }
{
    matches!(
        action,
        Action::WordIn { .. }
            | Action::WordOut { .. }
            | Action::ModeRun
            | Action::ModeProgram
            | Action::Clear
    )
}

/// Whether the tick of an action has come and the controller wouldn't answer it Held.
fn is_due(controller: &Controller, timed: &Timed) -> bool
    ensures { (project : Project) (events : List Events) (lane : ℕ) → StandsFor project events controller.now → result ≡ is_due project events lane timed.now }
{
    timed.at <= controller.now() && !(is_holdable(&timed.action) && controller.copy_open())
}

/// The action that a turn of the lane is to make, where `done` of its actions were made.
pub(crate) fn due_action<'a>(
    script: &'a Script,
    lane: u32,
    done: u32,
    controller: &Controller,
) -> Option<&'a Action>
    ensures { (project : Project) (events : List Events) → StandsFor project events controller.now → (lane < length script.now.lanes → done ≡ done_by lane events) → option_copied result ≡ due_action project script.now events lane }
{
    let timed = action_at(script, lane, done)?;
    if is_due(controller, timed) {
        Some(&timed.action)
    } else {
        None
    }
}

/// Whether the script's steps were made and no CPS is open.
fn is_spent(recording: &Recording, script: &Script) -> bool
    ensures { (project : Project) (events : List Events) → Records recording.now project events → result ≡ is_spent project script.now events }
{
    recording.steps() >= script.steps && !recording.controller().copy_open()
}

/// A processor step, and a tick after it if the pace divides its number.
fn make_step(recording: &mut Recording, pace: u32)
    requires pace { 0 < pace }
    requires room { recording.old.controller.spent + 2 ≤ MAX_EVENTS }
    requires spare { 2 ≤ recording.old.journal.spare }
    ensures records { RecordsMore recording.old recording.new (paced_step pace (recording.old.steps + 1)) }
    ensures spare { recording.old.journal.spare ≤ recording.new.journal.spare + length (paced_step pace (recording.old.steps + 1)) }
{
    recording.step();
    if recording.steps() % pace == 0 {
        recording.tick();
    }
}

/// A processor step with its tick, until the steps are spent.
pub(crate) fn help(recording: &mut Recording, script: &Script) -> Turn
    requires room { recording.old.controller.spent + 2 ≤ MAX_EVENTS }
    requires spare { 2 ≤ recording.old.journal.spare }
    ensures answer { MatchTurn result ⊥
        ((project : Project) (events : List Events) → Records recording.old project events → (is_spent project script.now events ≡ false) × Records recording.new project (events ++ paced_step script.now.pace (recording.old.steps + 1)))
        (((project : Project) (events : List Events) → Records recording.old project events → is_spent project script.now events ≡ true) × (recording.new ≡ recording.old))
        ⊥ }
    ensures spare { recording.old.journal.spare ≤ recording.new.journal.spare + length (paced_step script.now.pace (recording.old.steps + 1)) }
{
    if is_spent(recording, script) {
        return Turn::Done;
    }
    make_step(recording, script.pace);
    Turn::Helped
}

/// An action of a lane, which is counted.
pub(crate) fn make_action(
    recording: &mut Recording,
    counts: &mut Vec<u32>,
    lane: u32,
    action: &Action,
) -> Turn
    requires lane { lane < vec_len counts.old }
    requires room { recording.old.controller.spent < MAX_EVENTS }
    requires spare { 0 < recording.old.journal.spare }
    requires few { slice_index counts.old.items lane < MAX_ACTIONS }
    ensures answer { MatchTurn result
        (RecordsMore recording.old recording.new (Act lane action.now ∷ []) × (counts.new.items ≡ with_one_more counts.old.items lane))
        ⊥ ⊥
        (IsTrue (is_accept action.now) × (recording.new ≡ recording.old) × (counts.new.items ≡ counts.old.items)) }
    ensures spare { recording.old.journal.spare ≤ recording.new.journal.spare + 1 }
{
    if recording.take(EventsLent::Act(lane, action)).is_err() {
        return Turn::Memory;
    }
    counts[lane as usize] += 1;
    Turn::Did
}
