// The command `trace P J`.
ghost use Rattle.std.specs.Prelude.{◌≡◌};
ghost use Rattle.lgx_answer.specs.Endings.{ending_of};
ghost use Rattle.lgx_answer.specs.Answered.{Answered, call_of};
ghost use Rattle.cmd_trace.specs.TracePlan.{trace_plan};
ghost use Rattle.cmd_trace.specs.TraceState.{trace_file, trace_state, trace_left};

use crate::trace_lines::{ReadProject, TraceLines, lines_of};
use lgx_answer::{FileCommand, Status, Step, Verdict, answer};
use lgx_io::{Files, Sink};
use lgx_judge::{Judged, judge_journal, judge_project};
use lgx_num::Memory;
use std::alloc::Global;

/// `trace P J`: the project's file is to be read, or the journal's.
#[derive(Drop)]
pub(crate) enum Trace<'a> {
    /// Nothing was read yet. These are the names of the files.
    Both { project: &'a str, journal: &'a str },
    /// The project is accepted.
    OnProject { read: ReadProject, journal: &'a str },
}

impl<'a> FileCommand for Trace<'a> {
    type Text = TraceLines;

    ghost file = { trace_file };

    ghost next = { trace_state };

    ghost left = { trace_left };

    fn name(&self) -> &str {
        match self {
            Trace::Both { project, .. } => project,
            Trace::OnProject { journal, .. } => journal,
        }
    }

    fn judge(self, alloc: Global, bytes: Vec<u8>) -> Result<Step<Self, TraceLines>, Memory> {
        match self {
            Trace::Both { journal, .. } => match judge_project(alloc, &bytes)? {
                Judged::Accepted(project) => {
                    let read = ReadProject::of(bytes, project);
                    Ok(Step::Read(Trace::OnProject { read, journal }))
                }
                Judged::Refused(line) => Ok(Step::Say(Verdict::Project, line)),
            },
            Trace::OnProject { read, .. } => match judge_journal(alloc, &bytes)? {
                Judged::Accepted(journal) => {
                    let lines = lines_of(alloc, read, journal)?;
                    Ok(Step::Write(Verdict::Ok, lines))
                }
                Judged::Refused(line) => Ok(Step::Say(Verdict::Script, line)),
            },
        }
    }
}

/// `trace P J`: writes what is seen of the run of one file's journal on the project of another, a line an event, and the line
/// `end`.
pub fn trace_journal<F: Files, K: Sink>(
    alloc: Global,
    project: &str,
    journal: &str,
    files: &mut F,
    sink: &mut K,
) -> Status
    ensures { Answered (trace_plan project.now journal.now)
        (call_of F.told F.failures files.old files.new K.held K.faults sink.old sink.new (ending_of result)) }
{
    answer(alloc, Trace::Both { project, journal }, files, sink)
}
