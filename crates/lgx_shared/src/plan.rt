// What a script has for each lane, found by its index.
ghost use Rattle.std.specs.Prelude.{◌≡◌, ◌+◌, ◌≤◌, ◌<◌, length, sum_by, slice_get, slice_index_or, option_copied};
ghost use Rattle.spec_base.specs.declared.limits.TheConstants.{MAX_ACTIONS, MAX_IMAGE_BYTES, MAX_SCRIPT_STEPS, OWN_LANE};
ghost use Rattle.spec_lanes.specs.Turns.{lane_of, most_events};

use lgx_journal::{Script, Timed};
use lgx_num::Items;
use spec_base::limits::MAX_IMAGE_BYTES;

/// The number of a script's lanes.
pub(crate) fn lanes_of(script: &Script) -> u32
    ensures is { result ≡ length script.now.lanes }
    ensures few { result ≤ OWN_LANE }
{
    script.lanes.len() as u32
}

/// The number of a lane's actions; 0 if the script has no such lane.
pub(crate) fn length_of(script: &Script, lane: u32) -> u32
    ensures is { result ≡ length (lane_of script.now lane) }
    ensures few { result ≤ MAX_ACTIONS }
{
    match script.lanes.as_slice().get(lane as usize) {
        Some(actions) => actions.len() as u32,
        None => 0,
    }
}

/// The action of a lane at a place of its list.
pub(crate) fn action_at(script: &Script, lane: u32, index: u32) -> Option<&Timed>
    ensures { option_copied result ≡ slice_get (lane_of script.now lane) index }
{
    match script.lanes.as_slice().get(lane as usize) {
        Some(actions) => actions.as_slice().get(index as usize),
        None => None,
    }
}

/// How many of a lane's actions were made; 0 if there is no such lane.
pub(crate) fn count_of(counts: &[u32], lane: u32) -> u32
    ensures { result ≡ slice_index_or counts.now lane 0 }
{
    counts.get(lane as usize).copied().unwrap_or(0)
}

/// How many actions the lanes have.
fn action_count(lanes: &[Items<Timed>]) -> u32
    requires { sum_by (λ lane. length lane) lanes.now ≤ MAX_ACTIONS }
    ensures { result ≡ sum_by (λ lane. length lane) lanes.now }
{
    let mut count = 0;
    for lane in lanes {
        count += lane.len() as u32;
    }
    count
}

/// The journal's room for all events of a run of the script, and for two more.
pub(crate) fn room_for(script: &Script) -> u32
    ensures { result ≡ most_events script.now + 2 }
{
    let steps = script.steps + MAX_IMAGE_BYTES;
    1 + action_count(script.lanes.as_slice()) + steps + steps / script.pace + 2
}
