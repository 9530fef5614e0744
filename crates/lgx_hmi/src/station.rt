// A station that reads what a board published.
ghost use Rattle.std.specs.Prelude.{◌≡◌, ◌≤◌, ◌<◌, ◌+◌, ◌-◌, length, min, slice_get, Some};
ghost use Rattle.spec_board.specs.Stories.{IsPrefix, longer};
ghost use Rattle.lgx_hmi.specs.StationViews.{opening_view};

use crate::published::Published;
use crate::story::{Finds, Follows, Story};
use left_right::reader::Reader;
use spec_board::Snapshot;
use std::marker::Model;

/// A reader of the story, seen as the list of the snapshots that it has seen, which are the first ones of the story, at least one,
/// and the number of its reads.
#[derive(Drop)]
pub struct Station<S: Story> {
    // None where the board had no reader left to give.
    reader: Option<Reader<Published, (), Follows<S>>>,
    // How many snapshots it has seen, and the last of them.
    seen: u32,
    last: Snapshot,
    // How often it has read; the count stays at its last number.
    reads: u64,
}

impl<S: Story> Model for Station<S> {
    ghost use Rattle.std.specs.Prelude.{◌≡◌, ◌≤◌, ◌<◌, ◌-◌, length, take, slice_get, Some};
    ghost use Rattle.lgx_hmi.specs.StationViews.{StationView};

    ghost Value = { StationView };

    ghost view = { λ s. record { seen = take s.seen S.story; reads = s.reads } };

    ghost invariant = { λ s. (0 < s.seen) × (s.seen ≤ length S.story) × (slice_get S.story (s.seen - 1) ≡ Some s.last) };
}

impl<S: Story> Station<S> {
    /// A station that has seen the first snapshot, and has not read.
    pub(crate) fn new(
        first: Snapshot,
        reader: Option<Reader<Published, (), Follows<S>>>,
    ) -> Station<S>
        requires { slice_get S.story 0 ≡ Some first }
        ensures { result ≡ opening_view first }
    {
        Station {
            reader,
            seen: 1,
            last: first,
            reads: 0,
        }
    }

    /// The station sees a published list: the last snapshot of it, if it is newer than what was seen.
    pub(crate) fn look(&mut self, list: &Published)
        requires { IsPrefix list.now S.story }
        ensures { self.new ≡ record self.old { seen = longer self.old.seen list.now } }
    {
        let len = list.len();
        if self.seen < len {
            self.last = list.get(len - 1).copied();
            self.seen = len;
        }
    }

    /// The station sees what is published now, if its reader can be entered.
    fn enter(&mut self)
        ensures later { IsPrefix self.old.seen self.new.seen }
        ensures within { IsPrefix self.new.seen S.story }
        ensures reads { self.new.reads ≡ self.old.reads }
    {
        let Some(reader) = self.reader.take() else {
            return;
        };
        match reader.enter_as::<Finds<S>>() {
            Ok(reading) => {
                self.look(reading.get());
                self.reader = Some(reading.leave());
            }
            Err(reader) => self.reader = Some(reader),
        }
    }

    /// The last snapshot that it has seen.
    fn last(&self) -> Snapshot
        ensures within { IsPrefix self.now.seen S.story }
        ensures value { slice_get self.now.seen (length self.now.seen - 1) ≡ Some result }
        ensures told { slice_get S.story (length self.now.seen - 1) ≡ Some result }
    {
        self.last.copied()
    }

    /// The last snapshot of the list that the station has then seen: what is published, where that is more than it had seen and
    /// its reader can be entered, and else its last snapshot again. It takes no memory, and waits for nobody.
    pub fn read(&mut self) -> Snapshot
        ensures later { IsPrefix self.old.seen self.new.seen }
        ensures within { IsPrefix self.new.seen S.story }
        ensures value { slice_get self.new.seen (length self.new.seen - 1) ≡ Some result }
        ensures told { slice_get S.story (length self.new.seen - 1) ≡ Some result }
        ensures counted { self.new.reads ≡ min (self.old.reads + 1) u64.MAX }
    {
        self.enter();
        self.reads = self.reads.saturating_add(1);
        self.last()
    }
}
