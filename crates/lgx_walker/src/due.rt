// The due action of a lane.
ghost use Rattle.std.specs.Prelude.{◌≡◌, ℕ, ◌<◌, length, slice_get, slice_index_or, List, option_copied, IsTrue};
ghost use Rattle.spec_machine.specs.declared.event.Event.{Event as Events};
ghost use Rattle.spec_machine.specs.Project.{Project};
ghost use Rattle.spec_text.specs.Scripts.{is_script};
ghost use Rattle.spec_lanes.specs.Turns.{lane_of, done_by, is_due, due_action};
ghost use Rattle.spec_lanes.specs.Held.{is_holdable};
ghost use Rattle.lgx_core.specs.Represents.{StandsFor};

use lgx_core::Controller;
use lgx_journal::{Action, Script, Timed};

/// Every script that is read is one that can be run.
pub fn law_of_scripts(script: &Script)
    ensures { IsTrue (is_script script.now) }
{
    let _lanes = &script.lanes;
}

/// The action of a lane at a place of its list.
pub(crate) fn action_at(script: &Script, lane: u32, index: u32) -> Option<&Timed>
    ensures { option_copied result ≡ slice_get (lane_of script.now lane) index }
{
    match script.lanes.as_slice().get(lane as usize) {
        Some(actions) => actions.as_slice().get(index as usize),
        None => None,
    }
}

/// How many of a lane's actions were made; 0 if there is no such lane.
pub(crate) fn count_of(counts: &[u32], lane: u32) -> u32
    ensures { result ≡ slice_index_or counts.now lane 0 }
{
    counts.get(lane as usize).copied().unwrap_or(0)
}

/// Whether an action is answered Held while a CPS is open: an I/O word, or a command on the mode.
fn is_holdable(action: &Action) -> bool
    ensures { result ≡ is_holdable action.now }
{
    matches!(
        action,
        Action::WordIn { .. }
            | Action::WordOut { .. }
            | Action::ModeRun
            | Action::ModeProgram
            | Action::Clear
    )
}

/// Whether the tick of an action has come and the controller wouldn't answer it Held.
fn is_due(controller: &Controller, timed: &Timed) -> bool
    ensures { (project : Project) (events : List Events) (lane : ℕ) → StandsFor project events controller.now → result ≡ is_due project events lane timed.now }
{
    timed.at <= controller.now() && !(is_holdable(&timed.action) && controller.copy_open())
}

/// The lane's next action if it is due, where `done` of its actions were made.
pub(crate) fn due_action<'a>(
    script: &'a Script,
    lane: u32,
    done: u32,
    controller: &Controller,
) -> Option<&'a Action>
    ensures { (project : Project) (events : List Events) → StandsFor project events controller.now → (lane < length script.now.lanes → done ≡ done_by lane events) → option_copied result ≡ due_action project script.now events lane }
{
    let timed = action_at(script, lane, done)?;
    if is_due(controller, timed) {
        Some(&timed.action)
    } else {
        None
    }
}
