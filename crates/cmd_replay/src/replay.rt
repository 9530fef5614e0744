// The command `replay P J`.
ghost use Rattle.cmd_replay.specs.ReplayState.{replay_file, replay_next, replay_left};
ghost use Rattle.lgx_answer.specs.Endings.{ending_of};
ghost use Rattle.lgx_answer.specs.Answered.{Answered, call_of};
ghost use Rattle.cmd_replay.specs.ReplayPlan.{replay_plan};

use crate::report_lines::{ReportLines, report_of};
use lgx_answer::{FileCommand, Status, Step, Verdict, answer};
use lgx_io::{Files, Sink};
use lgx_judge::{Judged, judge_journal, judge_project};
use lgx_num::Memory;
use lgx_project::Project;
use std::alloc::Global;

/// `replay P J`: the project's file is to be read, or the journal's.
#[derive(Drop)]
pub(crate) enum Replay<'a> {
    /// Nothing was read yet. These are the names of the files.
    Both { project: &'a str, journal: &'a str },
    /// The project is accepted.
    OnProject { project: Project, journal: &'a str },
}

impl<'a> FileCommand for Replay<'a> {
    type Text = ReportLines;

    ghost file = { replay_file };

    ghost next = { replay_next };

    ghost left = { replay_left };

    fn name(&self) -> &str {
        match self {
            Replay::Both { project, .. } => project,
            Replay::OnProject { journal, .. } => journal,
        }
    }

    fn judge(self, alloc: Global, bytes: Vec<u8>) -> Result<Step<Self, ReportLines>, Memory> {
        match self {
            Replay::Both { journal, .. } => match judge_project(alloc, &bytes)? {
                Judged::Accepted(project) => Ok(Step::Read(Replay::OnProject { project, journal })),
                Judged::Refused(line) => Ok(Step::Say(Verdict::Project, line)),
            },
            Replay::OnProject { project, .. } => match judge_journal(alloc, &bytes)? {
                Judged::Accepted(journal) => {
                    let lines = report_of(alloc, project, &journal)?;
                    Ok(Step::Write(Verdict::Ok, lines))
                }
                Judged::Refused(line) => Ok(Step::Say(Verdict::Script, line)),
            },
        }
    }
}

/// `replay P J`: writes the report of one file's journal on another one's project.
pub fn replay_journal<F: Files, K: Sink>(
    alloc: Global,
    project: &str,
    journal: &str,
    files: &mut F,
    sink: &mut K,
) -> Status
    ensures { Answered (replay_plan project.now journal.now)
        (call_of F.told F.failures files.old files.new K.held K.faults sink.old sink.new (ending_of result)) }
{
    answer(alloc, Replay::Both { project, journal }, files, sink)
}
