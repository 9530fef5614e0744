// The command `stations P J C`.
ghost use Rattle.std.specs.Prelude.{◌≡◌, ◌<◌, ◌≤◌};
ghost use Rattle.lgx_answer.specs.Endings.{ending_of};
ghost use Rattle.lgx_answer.specs.Answered.{Answered, call_of};
ghost use Rattle.spec_story.specs.Snapshots.{snapshots};
ghost use Rattle.lgx_stations.specs.Asking.{ForReads, ForAll};
ghost use Rattle.lgx_stations.specs.declared.stations.TheConstants.{MAX_STATIONS};
ghost use Rattle.cmd_stations.specs.StationsPlan.{journal_watched, journal_read, stations_plan};

use crate::watched::watched;
use lgx_answer::{Status, Verdict, after_read, say, write};
use lgx_io::{Files, Sink};
use lgx_journal::Journal;
use lgx_judge::{Judged, judge_journal, judge_project};
use lgx_num::Memory;
use lgx_project::Project;
use lgx_stations::Gate;
use std::alloc::Global;
use std::sync::Wait;
use std::thread::Threads;

/// Replays a journal on a project while stations watch, and writes the report and what they gave.
fn watch_and_write<F: Files, K: Sink, G: Gate + Sync, R: Threads + Wait + Sync>(
    rt: &R,
    alloc: Global,
    project: Project,
    journal: Journal,
    stations: u32,
    files: &F,
    sink: &mut K,
    gate: &G,
) -> Status
    requires { (0 < stations) × (stations ≤ MAX_STATIONS) }
    ensures follows { Answered (journal_watched stations project journal.events)
        (call_of F.told F.failures files.now files.now K.held K.faults sink.old sink.new (ending_of result)) }
    ensures asked { result ≡ Status.Ok → ForAll (λ station n. G.asked gate.now station n) stations (snapshots project journal.events) }
{
    match watched(rt, alloc, project, &journal, stations, gate) {
        Ok(lines) => write(alloc, Verdict::Ok, lines, files, sink),
        Err(Memory) => Status::Memory,
    }
}

/// Replays the journal of a file on a project while stations watch.
fn watch_on<F: Files, K: Sink, G: Gate + Sync, R: Threads + Wait + Sync>(
    rt: &R,
    alloc: Global,
    project: Project,
    journal: &str,
    stations: u32,
    files: &mut F,
    sink: &mut K,
    gate: &G,
) -> Status
    requires { (0 < stations) × (stations ≤ MAX_STATIONS) }
    ensures follows { Answered (journal_read journal.now stations project)
        (call_of F.told F.failures files.old files.new K.held K.faults sink.old sink.new (ending_of result)) }
    ensures asked { result ≡ Status.Ok → ForReads (λ station n. G.asked gate.now station n) stations }
{
    let bytes = match files.read(journal) {
        Ok(bytes) => bytes,
        Err(fault) => return after_read(fault),
    };
    match judge_journal(alloc, &bytes) {
        Ok(Judged::Accepted(journal)) => watch_and_write(
            rt, alloc, project, journal, stations, files, sink, gate,
        ),
        Ok(Judged::Refused(line)) => say(Verdict::Script, line.as_slice(), files, sink),
        Err(Memory) => Status::Memory,
    }
}

/// `stations P J C`: replays the journal of one file on the project of another while 1 to 8 stations watch it, and writes the
/// report and then two lines a station, in their order: what it gave at its first read, and what it gave after everything was
/// published. Each line is one put. The journal is read only if the project isn't refused.
///
/// Each station reads 1,000 times on a thread of its own, beside the replay, which publishes the watched values after each tick,
/// for at most 4,096 snapshots with the opening one. The gate is called before each of these reads with the station's number
/// and the read's, both counted from 0, and before each tick is published with the number of stations and that of what is
/// published. The call may wait for its threads and for the gate; no status says that a thread couldn't be started.
#[inline(never)]
pub fn stations<F: Files, K: Sink, G: Gate + Sync, R: Threads + Wait + Sync>(
    rt: &R,
    alloc: Global,
    project: &str,
    journal: &str,
    stations: u32,
    files: &mut F,
    sink: &mut K,
    gate: &G,
) -> Status
    requires { (0 < stations) × (stations ≤ MAX_STATIONS) }
    ensures follows { Answered (stations_plan project.now journal.now stations)
        (call_of F.told F.failures files.old files.new K.held K.faults sink.old sink.new (ending_of result)) }
    ensures asked { result ≡ Status.Ok → ForReads (λ station n. G.asked gate.now station n) stations }
{
    let bytes = match files.read(project) {
        Ok(bytes) => bytes,
        Err(fault) => return after_read(fault),
    };
    match judge_project(alloc, &bytes) {
        Ok(Judged::Accepted(project)) => watch_on(
            rt, alloc, project, journal, stations, files, sink, gate,
        ),
        Ok(Judged::Refused(line)) => say(Verdict::Project, line.as_slice(), files, sink),
        Err(Memory) => Status::Memory,
    }
}
