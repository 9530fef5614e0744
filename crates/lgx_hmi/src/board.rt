// The board that publishes a story.
ghost use Rattle.std.specs.Prelude.{◌≡◌, ◌≤◌, ◌<◌, ◌-◌, ◌⊎◌, ◌↔◌, List, [], ◌∷◌, ◌++◌, length, drop, fold, IsOk, vec_len, vec_capacity, slice_index_or, slice_get, All, IfOk, OnOk, OnErr, IsTrue, Some, true, false};
ghost use Rattle.lgx_hmi.specs.StationViews.{opening_view};
ghost use Rattle.spec_board.specs.Stories.{IsPrefix, longer, with_next};
ghost use Rattle.spec_board.specs.declared.snapshot.TheConstants.{MAX_SNAPSHOTS};

use crate::published::Published;
use crate::station::Station;
use crate::story::{Finds, Follows, Story};
use core::mem::replace_with;
use left_right::writer::Writer;
use lgx_num::Memory;
use spec_board::{MAX_SNAPSHOTS, Snapshot};
use std::alloc::Global;
use std::marker::Model;
use std::sync::Wait;

/// The writer of a story, seen as the list of the snapshots that it has published: the first ones of the story, at least one. It
/// is not `Drop`: end it by [`Board::close`].
pub struct Board<S: Story> {
    writer: Writer<Published, Snapshot, (), Follows<S>>,
}

impl<S: Story> Model for Board<S> {
    ghost use Rattle.std.specs.Prelude.{◌≡◌, ◌<◌, List, [], length, drop};
    ghost use Rattle.spec_board.specs.declared.snapshot.Snapshot.{Snapshot};
    ghost use Rattle.spec_board.specs.Stories.{IsPrefix};

    ghost Value = { List Snapshot };

    ghost view = { λ b. b.writer.desk.shown.value };

    ghost invariant = { λ b. IsPrefix b.writer.desk.shown.value S.story × (0 < length b.writer.desk.shown.value) × (drop b.writer.behind b.writer.log.items ≡ []) };
}

/// Fills a list with stations that have seen the first snapshot. Where the writer gives no reader, a station has none.
fn seat<S: Story>(
    writer: &Writer<Published, Snapshot, (), Follows<S>>,
    first: &Snapshot,
    stations: u32,
    list: &mut Vec<Station<S>>,
)
    requires first { slice_get S.story 0 ≡ Some first.now }
    requires room { stations ≤ vec_capacity list.old }
    requires empty { list.old.items ≡ [] }
    ensures len { vec_len list.new ≡ stations }
    ensures seen { All (λ s. s ≡ opening_view first.now) list.new.items }
{
    for _ in 0..stations {
        let reader = writer.factory().reader().ok();
        list.push_reserved(Station::new(first.copied(), reader));
    }
}

/// Shows readers what is pending.
fn show<S: Story, R: Wait>(
    writer: Writer<Published, Snapshot, (), Follows<S>>,
    rt: &R,
) -> (
    Writer<Published, Snapshot, (), Follows<S>>,
    Result<(), Memory>,
)
    requires { let shown = writer.desk.shown.value in IsPrefix shown S.story × IsPrefix (fold with_next shown (drop writer.behind writer.log.items)) S.story }
    ensures succeeds { IsOk result.1 }
    ensures shown { let shown = writer.desk.shown.value in result.0.desk.shown.value ≡ fold with_next shown (drop writer.behind writer.log.items) }
    ensures settled { drop result.0.behind result.0.log.items ≡ [] }
{
    let (writer, shown) = writer.publish_as::<Finds<S>, R>(rt);
    (writer, shown.map_err(|_| Memory))
}

/// Publishes one more snapshot.
fn put<S: Story, R: Wait>(
    writer: &mut Writer<Published, Snapshot, (), Follows<S>>,
    rt: &R,
    next: &Snapshot,
) -> Result<(), Memory>
    requires settled { drop writer.old.behind writer.old.log.items ≡ [] }
    requires shown { IsPrefix writer.old.desk.shown.value S.story }
    requires next { IsPrefix (with_next writer.old.desk.shown.value next.now) S.story }
    ensures settled { drop writer.new.behind writer.new.log.items ≡ [] }
    ensures added { OnOk result (writer.new.desk.shown.value ≡ with_next writer.old.desk.shown.value next.now) }
    ensures unchanged { OnErr result (writer.new.desk.shown.value ≡ writer.old.desk.shown.value) }
{
    if writer.append(next.copied()).is_err() {
        return Err(Memory);
    }
    replace_with(writer, rt, |writer, rt| show(writer, rt))
}

impl<S: Story> Board<S> {
    /// A board that has published the first snapshot, and 1 to 8 stations that have seen it and have not read. It takes the room
    /// for all snapshots, in two copies: some 8 MB. Out of memory is the one fault.
    pub fn open(
        alloc: Global,
        first: &Snapshot,
        stations: u32,
    ) -> Result<(Board<S>, Vec<Station<S>>), Memory>
        requires stations { (0 < stations) × (stations ≤ 8) }
        requires first { slice_get S.story 0 ≡ Some first.now }
        ensures published { IfOk result (λ r. r.0 ≡ first.now ∷ []) }
        ensures stations { IfOk result (λ r. vec_len r.1 ≡ stations) }
        ensures seen { IfOk result (λ r. All (λ s. s ≡ opening_view first.now) r.1.items) }
    {
        let mut list = Vec::with_capacity(alloc, stations as usize)?;
        let one = Published::new(alloc, first.copied())?;
        let two = Published::new(alloc, first.copied())?;
        let writer = Writer::new(alloc, one, two, stations as usize)?;
        seat(&writer, first, stations, &mut list);
        Ok((Board { writer }, list))
    }

    /// Publishes the next snapshot of the story; the answer is whether there was room for it. It may wait for stations that are
    /// reading. At out of memory nothing was published.
    pub fn publish<R: Wait>(&mut self, rt: &R, next: &Snapshot) -> Result<bool, Memory>
        requires { (length self.old ≡ MAX_SNAPSHOTS) ⊎ IsPrefix (self.old ++ next.now ∷ []) S.story }
        ensures answer { IfOk result (λ added. IsTrue added ↔ (length self.old < MAX_SNAPSHOTS)) }
        ensures added { OnOk result (self.new ≡ with_next self.old next.now) }
        ensures unchanged { OnErr result (self.new ≡ self.old) }
    {
        if self.writer.published().len() as usize >= MAX_SNAPSHOTS {
            return Ok(false);
        }
        put(&mut self.writer, rt, next)?;
        Ok(true)
    }

    /// The station has then seen the published list too. It takes no memory, and waits for nobody.
    pub fn tell(&self, station: &mut Station<S>)
        ensures { station.new ≡ record station.old { seen = longer station.old.seen self.now } }
    {
        station.look(self.writer.published());
    }

    /// The published list. It waits for stations that are reading.
    pub fn close<R: Wait>(self, rt: &R) -> Published
        ensures { result ≡ self }
    {
        let Board { writer } = self;
        Box::into_inner(writer.take(rt))
    }
}
