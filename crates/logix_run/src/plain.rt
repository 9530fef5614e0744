// The commands that need no thread of their own, over any files and any sink.
ghost use Rattle.std.specs.Prelude.{◌≡◌, map, string_bytes};
ghost use Rattle.lgx_answer.specs.Endings.{ending_of};
ghost use Rattle.lgx_answer.specs.Answered.{Answered, call_of};
ghost use Rattle.logix_run.specs.Words.{command_plan, plain, plain_plan_of};
ghost use Rattle.logix_run.specs.Commands.{said};
ghost use Rattle.logix_run.specs.Answers.{IsAnswered};

use crate::command::{Command, command_of};
use cmd_link::link_projects;
use cmd_project::{check_project, migrate_project, spell_project};
use cmd_replay::{generate, replay_journal};
use cmd_trace::{audit_trace, trace_journal};
use cmd_xref::xref_project;
use lgx_answer::{Status, Verdict, say};
use lgx_io::{Files, Sink};
use std::alloc::Global;

/// The line that says how to use the program.
pub const USAGE: &[u8] =
    b"usage: logix check P, text P, replay P J, run P S, gen N, migrate P, trace P J, audit P T, xref P, stations P J C, link A B L\n";

/// Follows the plan of a command that needs no thread of its own, and for another one that of the usage.
pub(crate) fn follow_plain<F: Files, K: Sink>(
    alloc: Global,
    command: Command<'_>,
    files: &mut F,
    sink: &mut K,
) -> Status
    ensures { Answered (command_plan (plain (said command.entry)))
        (call_of F.told F.failures files.old files.new K.held K.faults sink.old sink.new (ending_of result)) }
{
    match command {
        Command::Check(project) => check_project(alloc, project, files, sink),
        Command::Text(project) => spell_project(alloc, project, files, sink),
        Command::Migrate(project) => migrate_project(alloc, project, files, sink),
        Command::Xref(project) => xref_project(alloc, project, files, sink),
        Command::Gen(number) => generate(alloc, number, files, sink),
        Command::Replay(project, journal) => replay_journal(alloc, project, journal, files, sink),
        Command::Trace(project, journal) => trace_journal(alloc, project, journal, files, sink),
        Command::Audit(project, trace) => audit_trace(alloc, project, trace, files, sink),
        Command::Link(a, b, script) => link_projects(alloc, a, b, script, files, sink),
        Command::Run(..) | Command::Stations(..) | Command::Usage => {
            say(Verdict::Usage, USAGE, files, sink)
        }
    }
}

/// Does what the words of the command line say, and answers how the program ends: [`crate::logix`] without the commands
/// `run P S` and `stations P J C`, which it answers with the usage line. It waits for nobody.
///
/// `check P` counts the parts of the project of the file `P`, `text P` writes the rungs of its routines,
/// `migrate P` writes the file in the newest schema, `replay P J` runs the journal of the file `J` on the project and writes
/// the report, `gen N` counts the lines of the report on a project and a journal that the number makes, `trace P J`
/// writes what is seen of the run of the journal of the file `J`, `audit P T` says whether the trace of the file `T` keeps the
/// laws of the schedule, `xref P` lists the instructions that may write each tag and those that read it, and `link A B L` runs
/// the projects of `A` and `B` over the link script of the file `L`. Any other words are answered with the usage line. Each line
/// is one put; the project is read and checked before the journal is read.
///
/// At `WriteFault` and `Memory` a first part of the output was put, at `ReadFault` and `TooLong` nothing. Of `check P` the memory of
/// the project isn't given back, as [`check_project`] says.
#[tactic(auto, using(crate::proofs::Laws::answered))]
pub fn logix_plain<F: Files, K: Sink>(
    alloc: Global,
    words: &[String],
    files: &mut F,
    sink: &mut K,
) -> Status
    ensures { IsAnswered (plain_plan_of (map string_bytes words.now))
        (call_of F.told F.failures files.old files.new K.held K.faults sink.old sink.new (ending_of result)) }
{
    follow_plain(alloc, command_of(words), files, sink)
}
