// A station at a gate, and what it gives.
ghost use Rattle.std.specs.Prelude.{◌≡◌, ◌+◌, ◌<◌, ◌-◌, None, Some, length, slice_get};
ghost use Rattle.spec_board.specs.Stories.{IsPrefix};
ghost use Rattle.lgx_stations.specs.Telling.{IsFirstOf, AreReadingsOf, first_kept};

use lgx_hmi::{Board, Snapshot, Station, Story};
use lgx_lanes::Gate;

/// How often a station reads while the journal is replayed.
pub const READS: u32 = 1000;

/// What a station gave. Only a watcher that has read 1,000 times makes one.
#[derive(Drop)]
pub struct Readings {
    first: Snapshot,
    last: Snapshot,
}

impl Readings {
    /// At its first read, while the journal was replayed.
    pub fn first(&self) -> &Snapshot
        ensures { result.now ≡ self.now.first }
    {
        &self.first
    }

    /// After the replay, when it had been shown all that was published.
    pub fn last(&self) -> &Snapshot
        ensures { result.now ≡ self.now.last }
    {
        &self.last
    }
}

/// A station that is read at a gate alone, but for its last read in `finish`, and what it gave first.
#[derive(Drop)]
pub(crate) struct GatedStation<S: Story> {
    station: Station<S>,
    /// The station's number, counted from 0.
    lane: u32,
    first: Option<Snapshot>,
}

impl<S: Story> GatedStation<S> {
    /// A station that has not read.
    pub(crate) fn new(station: Station<S>, lane: u32) -> GatedStation<S>
        requires { station.reads ≡ 0 }
        ensures lane { result.lane ≡ lane }
        ensures reads { result.station.reads ≡ 0 }
        ensures first { result.first ≡ None }
    {
        GatedStation {
            station,
            lane,
            first: None,
        }
    }

    /// The station's number, counted from 0.
    pub(crate) fn lane(&self) -> u32
        ensures { result ≡ self.now.lane }
    {
        self.lane
    }

    /// One more read, for which the gate was asked before. What the first one gives is kept.
    pub(crate) fn read<G: Gate>(&mut self, gate: &G)
        requires asked { G.asked gate.now self.old.lane self.old.station.reads }
        requires few { self.old.station.reads < READS }
        ensures lane { self.new.lane ≡ self.old.lane }
        ensures reads { self.new.station.reads ≡ self.old.station.reads + 1 }
        ensures later { IsPrefix self.old.station.seen self.new.station.seen }
        ensures told { IsFirstOf S.story (slice_get self.new.station.seen (length self.new.station.seen - 1)) }
        ensures first { self.new.first ≡ first_kept self.old.first (slice_get self.new.station.seen (length self.new.station.seen - 1)) }
    {
        let _asked = gate;
        let snapshot = self.station.read();
        if self.first.is_none() {
            self.first = Some(snapshot);
        }
    }

    /// The first snapshot, and that which the station gives when it was shown the whole story.
    pub(crate) fn finish(self, board: &Board<S>) -> Readings
        requires reads { self.station.reads ≡ READS }
        requires first { IsFirstOf S.story self.first }
        requires told { board.now ≡ S.story }
        ensures first { self.first ≡ Some result.first }
        ensures readings { AreReadingsOf S.story result }
    {
        let GatedStation {
            mut station,
            lane: _,
            first,
        } = self;
        board.tell(&mut station);
        let last = station.read();
        match first {
            Some(first) => Readings { first, last },
            None => unreachable!(),
        }
    }
}
