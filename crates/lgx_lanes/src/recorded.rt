// What lanes take turns at.
use crate::input::Input;
use crate::turn::Turn;
use lgx_journal::Journal;

/// What records a run of the named script on the named project, by turns of its lanes.
pub trait Recorded<I: Input>: Drop {
    ghost use Rattle.std.specs.Prelude.{◌≡◌, ◌≤◌, length, slice_index_or};
    ghost use Rattle.spec_base.specs.declared.limits.TheConstants.{MAX_ACTIONS, MAX_SCRIPT_STEPS, OWN_LANE};
    ghost use Rattle.spec_lanes.specs.Turns.{lane_of};
    ghost use Rattle.lgx_lanes.specs.Progress.{Progress, IsUnderWay};
    ghost use Rattle.lgx_lanes.specs.Serves.{Serves};

    /// How far the lanes are.
    ghost progress: { Self → Progress };

    /// A turn of a lane.
    fn serve(&mut self, lane: u32) -> Turn
        ensures under_way { IsUnderWay I.project I.script (progress self.old) × IsUnderWay I.project I.script (progress self.new) }
        ensures turn { Serves I.project I.script lane (progress self.old) result (progress self.new) };

    /// How many actions of a lane were made; 0 if there is no such lane.
    fn made(&self, lane: u32) -> u32
        ensures is { result ≡ slice_index_or (progress self.now).counts lane 0 }
        ensures under_way { IsUnderWay I.project I.script (progress self.now) };

    /// The events that were taken.
    fn journal(&self) -> &Journal
        ensures is { result.now.events ≡ (progress self.now).events }
        ensures under_way { IsUnderWay I.project I.script (progress self.now) };

    /// The number of the script's lanes.
    fn lanes(&self) -> u32
        ensures is { result ≡ length I.script.lanes }
        ensures few { result ≤ OWN_LANE };

    /// The number of a lane's actions.
    fn length_of(&self, lane: u32) -> u32
        ensures is { result ≡ length (lane_of I.script lane) }
        ensures few { result ≤ MAX_ACTIONS };

    /// How many processor steps the script wants at least.
    fn least_steps(&self) -> u32
        ensures is { result ≡ I.script.steps }
        ensures few { result ≤ MAX_SCRIPT_STEPS };
}
