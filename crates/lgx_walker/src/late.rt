// Whether a lane's next action would be late.
ghost use Rattle.std.specs.Prelude.{◌≡◌, true, false, slice_get, slice_index_or};
ghost use Rattle.spec_lanes.specs.Turns.{lane_of};
ghost use Rattle.spec_explore.specs.Questions.{is_late_at};
ghost use Rattle.lgx_walker.specs.Late.{SomeIsLate, NoneIsLate};

use crate::due::{action_at, count_of};
use lgx_journal::Script;

/// Whether the next action of a lane is late at a tick: its time is more than `most` ticks ago.
fn is_lane_late(script: &Script, most: u32, counts: &[u32], tick: u64, lane: u32) -> bool
    ensures { result ≡ is_late_at most tick (slice_get (lane_of script.now lane) (slice_index_or counts.now lane 0)) }
{
    match action_at(script, lane, count_of(counts, lane)) {
        Some(timed) => timed.at as u64 + (most as u64) < tick,
        None => false,
    }
}

/// Whether the next action of some lane is late at a tick, by how many actions each lane made.
pub(crate) fn is_some_late(script: &Script, within: Option<u32>, counts: &[u32], tick: u64) -> bool
    ensures some { result ≡ true → SomeIsLate within script.now counts.now tick }
    ensures none { result ≡ false → NoneIsLate within script.now counts.now tick }
{
    let Some(most) = within else {
        return false;
    };
    for lane in 0..script.lanes.len() {
        if is_lane_late(script, most, counts, tick, lane as u32) {
            return true;
        }
    }
    false
}
