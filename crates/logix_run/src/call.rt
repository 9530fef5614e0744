// The program, over any files, any sink and any gate.
ghost use Rattle.std.specs.Prelude.{◌≡◌, ℕ, Some, map, string_bytes};
ghost use Rattle.lgx_answer.specs.Endings.{ending_of};
ghost use Rattle.lgx_answer.specs.Answered.{Answered, call_of};
ghost use Rattle.lgx_stations.specs.Asking.{ForReads};
ghost use Rattle.logix_run.specs.Words.{command_of as asked_for, command_plan, plan_of, stations_of};
ghost use Rattle.logix_run.specs.Commands.{said, HasStations};
ghost use Rattle.lgx_answer.specs.Process.{IsProcess};
ghost use Rattle.logix_run.specs.Answers.{IsAnswered};

use crate::command::{Command, command_of};
use crate::plain::follow_plain;
use cmd_run::run;
use cmd_stations::stations;
use lgx_answer::{Status, exit_number};
use lgx_io::{Files, Gathered, Sink};
use lgx_shared::Gate;
use std::alloc::Global;
use std::io::Write;
use std::sync::Wait;
use std::thread::Threads;

/// Follows the plan of a command.
fn follow<F: Files, K: Sink, G: Gate + Sync, R: Threads + Wait + Sync>(
    rt: &R,
    alloc: Global,
    command: Command<'_>,
    files: &mut F,
    sink: &mut K,
    gate: &G,
) -> Status
    requires { HasStations command }
    ensures follows { Answered (command_plan (said command.entry))
        (call_of F.told F.failures files.old files.new K.held K.faults sink.old sink.new (ending_of result)) }
    ensures asked { (count : ℕ) → stations_of (said command.entry) ≡ Some count → result ≡ Status.Ok → ForReads (λ station n. G.asked gate.now station n) count }
{
    match command {
        Command::Run(project, script) => run(rt, alloc, project, script, files, sink, gate),
        Command::Stations(project, journal, count) => {
            stations(rt, alloc, project, journal, count, files, sink, gate)
        }
        other => follow_plain(alloc, other, files, sink),
    }
}

/// Does what the words of the command line say, and answers how the program ends: all that [`crate::logix_plain`] does,
/// `run P S` and `stations P J C`.
///
/// `run P S` reads and checks the project of the file `P` and then the script of the file `S`. Each lane of the script
/// takes its turns on a thread of its own, and one thread more takes turns of no lane; a turn makes its lane's next action
/// if that is due, and else a processor step. Before each turn the gate is called, without the lock. Then the journal of
/// the run is written, and its report: each line is one put. However the threads interleave, every action is in the
/// journal once, in its lane's order. The call may wait for its threads, for the lock and for the gate; no status says that
/// a thread couldn't be started.
///
/// `stations P J C` replays the journal of the file `J` on the project of the file `P`, while C operator stations on threads of
/// their own read the watched values, and then writes what each gave first and last. They take no lock, and the gate is called
/// before each of their 1,000 reads and before each tick is published.
///
/// [`Status`] says when each answer comes. At `WriteFault` and `Memory` a first part of the output was put, at `ReadFault` and
/// `TooLong` nothing.
#[tactic(auto, using(crate::proofs::Laws::answered))]
pub fn logix<F: Files, K: Sink, G: Gate + Sync, R: Threads + Wait + Sync>(
    rt: &R,
    alloc: Global,
    words: &[String],
    files: &mut F,
    sink: &mut K,
    gate: &G,
) -> Status
    ensures follows { IsAnswered (plan_of (map string_bytes words.now))
        (call_of F.told F.failures files.old files.new K.held K.faults sink.old sink.new (ending_of result)) }
    ensures asked { (count : ℕ) → stations_of (asked_for (map string_bytes words.now)) ≡ Some count → result ≡ Status.Ok → ForReads (λ station n. G.asked gate.now station n) count }
{
    follow(rt, alloc, command_of(words), files, sink, gate)
}

/// All that the process does with its words: what [`logix`] does, and then what still waits to be written is written. Answers
/// the number that the process ends with.
pub fn program<F: Files, W: Write + Drop, G: Gate + Sync, R: Threads + Wait + Sync>(
    rt: &R,
    alloc: Global,
    words: &[String],
    files: &mut F,
    output: &mut Gathered<W>,
    gate: &G,
) -> u8
    ensures { IsProcess (plan_of (map string_bytes words.now)) (F.told files.old)
        (record { old = F.failures files.old; new = F.failures files.new })
        output.old output.new result }
{
    let status = logix(rt, alloc, words, files, output, gate);
    exit_number(status, output)
}
