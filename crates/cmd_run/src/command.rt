// The command `run P S`.
ghost use Rattle.lgx_answer.specs.Endings.{ending_of};
ghost use Rattle.lgx_answer.specs.Answered.{Answered, call_of};
ghost use Rattle.cmd_run.specs.RunPlan.{script_ran, script_read, run_plan};

use crate::lanes::run_script;
use crate::lines::RunLines;
use lgx_answer::{Status, Verdict, after_read, say, write};
use lgx_io::{Files, Sink};
use lgx_journal::Script;
use lgx_judge::{Judged, judge_project, judge_script};
use lgx_num::Memory;
use lgx_project::Project;
use lgx_shared::Gate;
use std::alloc::Global;
use std::sync::Wait;
use std::thread::Threads;

/// Runs a script on a project, and writes the text of the run.
fn run_and_write<F: Files, K: Sink, G: Gate + Sync, R: Threads + Wait + Sync>(
    rt: &R,
    alloc: Global,
    project: Project,
    script: Script,
    files: &F,
    sink: &mut K,
    gate: &G,
) -> Status
    ensures { Answered (script_ran project script)
        (call_of F.told F.failures files.now files.now K.held K.faults sink.old sink.new (ending_of result)) }
{
    match run_script(rt, alloc, project, script, gate) {
        Ok(recorder) => write(alloc, Verdict::Ok, RunLines::of(recorder), files, sink),
        Err(Memory) => Status::Memory,
    }
}

/// Runs the script of a file on a project.
fn run_on<F: Files, K: Sink, G: Gate + Sync, R: Threads + Wait + Sync>(
    rt: &R,
    alloc: Global,
    project: Project,
    script: &str,
    files: &mut F,
    sink: &mut K,
    gate: &G,
) -> Status
    ensures { Answered (script_read script.now project)
        (call_of F.told F.failures files.old files.new K.held K.faults sink.old sink.new (ending_of result)) }
{
    let bytes = match files.read(script) {
        Ok(bytes) => bytes,
        Err(fault) => return after_read(fault),
    };
    match judge_script(alloc, &bytes) {
        Ok(Judged::Accepted(script)) => run_and_write(
            rt, alloc, project, script, files, sink, gate,
        ),
        Ok(Judged::Refused(line)) => say(Verdict::Script, line.as_slice(), files, sink),
        Err(Memory) => Status::Memory,
    }
}

/// `run P S`: runs the script of one file on the project of another, and writes the journal of the run and its report, each line
/// by one put. The script is read only if the project isn't refused.
///
/// Each lane of the script takes its turns on a thread of its own, and one thread more takes turns of no lane; a turn makes its
/// lane's next action if that is due, and otherwise a processor step. Before each turn the gate is called, without the lock. However
/// the threads interleave, every action is in the journal once, in its lane's order. The call may wait for its threads, for the
/// lock and for the gate; no status says that a thread couldn't be started.
///
/// The whole text, read as a journal, is the journal of the run, if that is within a journal's limits of steps, ticks, actions and
/// bytes of a line: it ends with its line `end`. As a file it must besides have at most 16,777,216 bytes, its report among them.
#[inline(never)]
pub fn run<F: Files, K: Sink, G: Gate + Sync, R: Threads + Wait + Sync>(
    rt: &R,
    alloc: Global,
    project: &str,
    script: &str,
    files: &mut F,
    sink: &mut K,
    gate: &G,
) -> Status
    ensures { Answered (run_plan project.now script.now)
        (call_of F.told F.failures files.old files.new K.held K.faults sink.old sink.new (ending_of result)) }
{
    let bytes = match files.read(project) {
        Ok(bytes) => bytes,
        Err(fault) => return after_read(fault),
    };
    match judge_project(alloc, &bytes) {
        Ok(Judged::Accepted(project)) => run_on(rt, alloc, project, script, files, sink, gate),
        Ok(Judged::Refused(line)) => say(Verdict::Project, line.as_slice(), files, sink),
        Err(Memory) => Status::Memory,
    }
}
