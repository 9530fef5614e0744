// Stations on threads, beside the replay that they read.
ghost use Rattle.std.specs.Prelude.{◌≡◌, ℕ, ◌<◌, ◌≤◌, [], All, IfOk, OnOk, None, length, slice_index_or, vec_len, vec_capacity};
ghost use Rattle.spec_base.specs.declared.limits.TheConstants.{MAX_EVENTS};
ghost use Rattle.spec_story.specs.Snapshots.{snapshots};
ghost use Rattle.lgx_stations.specs.Asking.{ForReads, ForPublishes, ForAll};
ghost use Rattle.lgx_stations.specs.Reports.{Reports};
ghost use Rattle.lgx_stations.specs.Telling.{IsAt, AreReadingsOf};
ghost use Rattle.lgx_stations.specs.Watching.{IsUnread, HasRead};
ghost use Rattle.lgx_stations.specs.declared.stations.TheConstants.{MAX_STATIONS};

use crate::gated::{GatedStation, READS, Readings};
use crate::input::{JournalInput, Tells};
use crate::reported::Reported;
use crate::telling::tell_journal;
use lgx_hmi::{Board, Station, Story};
use lgx_journal::Journal;
use lgx_lanes::Gate;
use lgx_num::Memory;
use std::alloc::Global;
use std::sync::Wait;
use std::thread::{Threads, for_each_mut, join_mut};

/// How many stations watch a replay at most.
pub const MAX_STATIONS: u32 = 8;

/// Gives each station its number. The last one comes first.
fn number_all<S: Story>(stations: Vec<Station<S>>, watchers: &mut Vec<GatedStation<S>>)
    requires many { vec_len stations ≤ MAX_STATIONS }
    requires room { vec_len stations ≤ vec_capacity watchers.old }
    requires empty { watchers.old.items ≡ [] }
    requires new { All (λ s. s.reads ≡ 0) stations.items }
    ensures len { vec_len watchers.new ≡ vec_len stations }
    ensures new { (i : ℕ) (d : _) → i < vec_len stations → let w = slice_index_or watchers.new.items i d in IsUnread (vec_len stations) i w.lane w.station w.first }
{
    let mut stations = stations;
    while let Some(station) = stations.pop() {
        let lane = stations.len() as u32;
        watchers.push_reserved(GatedStation::new(station, lane));
    }
}

/// One station reads while the journal is replayed.
fn watch<S: Story, G: Gate>(gate: &G, watcher: &mut GatedStation<S>)
    requires { (watcher.old.station.reads ≡ 0) × (watcher.old.first ≡ None) }
    ensures read { HasRead S.story watcher.new.station watcher.new.first }
    ensures asked { (n : ℕ) → n < READS → G.asked gate.now watcher.old.lane n }
{
    for index in 0..READS {
        gate.before(watcher.lane(), index);
        watcher.read(gate);
    }
}

/// The stations read, each on a thread of its own.
fn watch_all<S: Story + Send, G: Gate + Sync, R: Threads + Sync>(
    rt: &R,
    gate: &G,
    watchers: &mut [GatedStation<S>],
)
    requires some { 0 < length watchers.old }
    requires new { (i : ℕ) (d : _) → i < length watchers.old → let w = slice_index_or watchers.old i d in IsUnread (length watchers.old) i w.lane w.station w.first }
    ensures read { All (λ w. HasRead S.story w.station w.first) watchers.new }
    ensures asked { ForReads (λ lane n. G.asked gate.now lane n) (length watchers.old) }
    ensures len { length watchers.new ≡ length watchers.old }
{
    let threads = watchers.len();
    for_each_mut(rt, watchers, threads, &|_, watcher| watch(gate, watcher));
}

/// The journal is replayed and published, while the stations read, each on a thread of its own.
fn run_beside<I: JournalInput + Send, G: Gate + Sync, R: Threads + Wait + Sync>(
    rt: &R,
    gate: &G,
    reported: &mut Reported,
    board: &mut Board<Tells<I>>,
    watchers: &mut [GatedStation<Tells<I>>],
    journal: &Journal,
) -> Result<(), Memory>
    requires so_far { IsAt I.project I.journal reported.old board.old journal.now.events }
    requires some { (0 < length watchers.old) × (length watchers.old ≤ MAX_STATIONS) }
    requires new { (i : ℕ) (d : _) → i < length watchers.old → let w = slice_index_or watchers.old i d in IsUnread (length watchers.old) i w.lane w.station w.first }
    ensures records { OnOk result (Reports reported.new I.project I.journal) }
    ensures told { OnOk result (board.new ≡ snapshots I.project I.journal) }
    ensures read { All (λ w. HasRead (snapshots I.project I.journal) w.station w.first) watchers.new }
    ensures reads { ForReads (λ lane n. G.asked gate.now lane n) (length watchers.old) }
    ensures publishes { ForPublishes (λ k. G.asked gate.now (length watchers.old) k) (length board.old) (length board.new) }
    ensures len { length watchers.new ≡ length watchers.old }
{
    let lane = watchers.len() as u32;
    let (_, told) = join_mut(
        rt,
        &mut || -> ()
            requires some { 0 < length watchers.now }
            requires new { (i : ℕ) (d : _) → i < length watchers.now → let w = slice_index_or watchers.now i d in IsUnread (length watchers.now) i w.lane w.station w.first }
            ensures read { All (λ w. HasRead (snapshots I.project I.journal) w.station w.first) watchers.exit.now }
            ensures reads { ForReads (λ lane n. G.asked gate.entry.now lane n) (length watchers.entry.now) }
            ensures len { length watchers.exit.now ≡ length watchers.entry.now }
        { watch_all(rt, gate, watchers) },
        &mut || -> Result<(), Memory>
            requires { IsAt I.project I.journal reported.now board.now journal.now.events }
            ensures records { OnOk result (Reports reported.exit.now I.project I.journal) }
            ensures told { OnOk result (board.exit.now ≡ snapshots I.project I.journal) }
            ensures publishes { ForPublishes (λ k. G.asked gate.entry.now lane k) (length board.entry.now) (length board.exit.now) }
        { tell_journal(rt, gate, lane, reported, board, journal) },
    );
    told
}

/// Shows each station the whole story, and reads it once more; the last one first.
fn finish_all<S: Story>(
    alloc: Global,
    board: &Board<S>,
    watchers: Vec<GatedStation<S>>,
) -> Result<Vec<Readings>, Memory>
    requires told { board.now ≡ S.story }
    requires read { All (λ w. HasRead S.story w.station w.first) watchers.items }
    ensures count { IfOk result (λ readings. vec_len readings ≡ vec_len watchers) }
    ensures each { IfOk result (λ readings. All (λ r. AreReadingsOf S.story r) readings.items) }
{
    let mut readings = Vec::with_capacity(alloc, watchers.len())?;
    let mut watchers = watchers;
    while let Some(watcher) = watchers.pop() {
        readings.push_reserved(watcher.finish(board));
    }
    Ok(readings)
}

/// The replay with its stations, to each station's last read.
fn watch_through<I: JournalInput + Send, G: Gate + Sync, R: Threads + Wait + Sync>(
    rt: &R,
    alloc: Global,
    gate: &G,
    reported: &mut Reported,
    board: &mut Board<Tells<I>>,
    watchers: Vec<GatedStation<Tells<I>>>,
    journal: &Journal,
) -> Result<Vec<Readings>, Memory>
    requires so_far { IsAt I.project I.journal reported.old board.old journal.now.events }
    requires some { (0 < vec_len watchers) × (vec_len watchers ≤ MAX_STATIONS) }
    requires new { (i : ℕ) (d : _) → i < vec_len watchers → let w = slice_index_or watchers.items i d in IsUnread (vec_len watchers) i w.lane w.station w.first }
    ensures records { OnOk result (Reports reported.new I.project I.journal) }
    ensures count { IfOk result (λ readings. vec_len readings ≡ vec_len watchers) }
    ensures readings { IfOk result (λ readings. All (λ r. AreReadingsOf (snapshots I.project I.journal) r) readings.items) }
    ensures reads { IfOk result (λ _. ForReads (λ lane n. G.asked gate.now lane n) (vec_len watchers)) }
    ensures publishes { IfOk result (λ _. ForPublishes (λ k. G.asked gate.now (vec_len watchers) k) (length board.old) (length (snapshots I.project I.journal))) }
{
    let mut watchers = watchers;
    run_beside(rt, gate, reported, board, watchers.as_mut_slice(), journal)?;
    finish_all(alloc, board, watchers)
}

/// Replays a journal, while as many stations as are asked for watch it on threads of their own; what each gave, in their order.
/// Each reads 1,000 times while the journal is replayed, and once more when all is published. Where no thread can be made they
/// read before it. The gate is called before each of the 1,000 reads with the station's number and the read's, both counted from
/// 0, and before each tick is published with the number of stations and that of what is published. Out of memory is the one fault.
pub fn watch_journal<I: JournalInput + Send, G: Gate + Sync, R: Threads + Wait + Sync>(
    rt: &R,
    alloc: Global,
    gate: &G,
    reported: &mut Reported,
    journal: &Journal,
    stations: u32,
) -> Result<Vec<Readings>, Memory>
    requires stations { (0 < stations) × (stations ≤ MAX_STATIONS) }
    requires new { Reports reported.old I.project [] }
    requires journal { journal.now.events ≡ I.journal }
    requires few { length I.journal ≤ MAX_EVENTS }
    ensures records { OnOk result (Reports reported.new I.project I.journal) }
    ensures count { IfOk result (λ readings. vec_len readings ≡ stations) }
    ensures readings { IfOk result (λ readings. All (λ r. AreReadingsOf (snapshots I.project I.journal) r) readings.items) }
    ensures asked { IfOk result (λ _. ForAll (λ lane n. G.asked gate.now lane n) stations (snapshots I.project I.journal)) }
{
    let mut watchers = Vec::with_capacity(alloc, stations as usize)?;
    let (mut board, list) = Board::<Tells<I>>::open(alloc, &reported.snapshot(), stations)?;
    number_all(list, &mut watchers);
    let readings = watch_through(rt, alloc, gate, reported, &mut board, watchers, journal);
    board.close(rt);
    readings
}
