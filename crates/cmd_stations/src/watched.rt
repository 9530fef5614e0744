// A journal, replayed while stations watch.
ghost use Rattle.std.specs.Prelude.{◌≡◌, ◌<◌, ◌≤◌, length, IfOk};
ghost use Rattle.spec_base.specs.declared.limits.TheConstants.{MAX_EVENTS};
ghost use Rattle.spec_story.specs.Snapshots.{snapshots};
ghost use Rattle.lgx_stations.specs.Asking.{ForAll};
ghost use Rattle.lgx_stations.specs.declared.stations.TheConstants.{MAX_STATIONS};
ghost use Rattle.cmd_stations.specs.Rest.{rest_of};
ghost use Rattle.cmd_stations.specs.StationsText.{IsStationsText};

use crate::lines::{NextLine, StationsLines};
use crate::texts::stations_text;
use lgx_journal::Journal;
use lgx_judge::end_of;
use lgx_num::Memory;
use lgx_project::Project;
use lgx_record::Run;
use lgx_stations::{Gate, JournalInput, Reported, watch_journal};
use lgx_watch::Log;
use std::alloc::Global;
use std::marker::Brand;
use std::sync::Wait;
use std::thread::Threads;

/// The lines of a journal that was replayed on a project, while `stations` operator stations watched.
///
/// No type of a station is in its signature: so its caller may say what the input names.
fn watched_as<I: JournalInput + Send, G: Gate + Sync, R: Threads + Wait + Sync>(
    rt: &R,
    alloc: Global,
    project: Project,
    journal: &Journal,
    stations: u32,
    gate: &G,
) -> Result<StationsLines, Memory>
    requires input { (project ≡ I.project) × (journal.now.events ≡ I.journal) }
    requires stations { (0 < stations) × (stations ≤ MAX_STATIONS) }
    requires few { length journal.now.events ≤ MAX_EVENTS }
    ensures text { IfOk result (λ lines. IsStationsText project journal.now.events stations (rest_of lines.reported lines.end lines.stations.items lines.place)) }
    ensures asked { IfOk result (λ _. ForAll (λ station n. G.asked gate.now station n) stations (snapshots project journal.now.events)) }
{
    let log = Log::new(alloc)?;
    let run = Run::of_project(alloc, project)?;
    let mut reported = Reported { run, log };
    let readings = watch_journal::<I, G, R>(rt, alloc, gate, &mut reported, journal, stations)?;
    let text = stations_text(alloc, &readings)?;
    let end = end_of(reported.run.controller(), reported.run.steps());
    Ok(StationsLines {
        reported,
        end,
        stations: text,
        place: NextLine::Report(0),
    })
}

/// The lines of a journal that was replayed on a project, while `stations` operator stations watched.
pub(crate) fn watched<G: Gate + Sync, R: Threads + Wait + Sync>(
    rt: &R,
    alloc: Global,
    project: Project,
    journal: &Journal,
    stations: u32,
    gate: &G,
) -> Result<StationsLines, Memory>
    requires stations { (0 < stations) × (stations ≤ MAX_STATIONS) }
    requires few { length journal.now.events ≤ MAX_EVENTS }
    ensures text { IfOk result (λ lines. IsStationsText project journal.now.events stations (rest_of lines.reported lines.end lines.stations.items lines.place)) }
    ensures asked { IfOk result (λ _. ForAll (λ station n. G.asked gate.now station n) stations (snapshots project journal.now.events)) }
{
    watched_as::<Brand, G, R>(rt, alloc, project, journal, stations, gate)
}
