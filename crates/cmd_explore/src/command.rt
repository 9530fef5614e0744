// The files of `logix_explore P S Q`: a project, a script and a question.
ghost use Rattle.lgx_answer.specs.Endings.{ending_of};
ghost use Rattle.lgx_answer.specs.Answered.{Answered, call_of};
ghost use Rattle.cmd_explore.specs.ExplorePlan.{explore_plan};
ghost use Rattle.cmd_explore.specs.ExploreState.{explore_file, explore_next, explore_left};

use crate::explored::explored;
use crate::judged::judge_question;
use lgx_answer::{FileCommand, NoLines, Status, Step, Verdict, answer};
use lgx_explore::Progress;
use lgx_io::{Files, Sink};
use lgx_journal::Script;
use lgx_judge::{Judged, judge_project, judge_script};
use lgx_num::Memory;
use lgx_project::Project;
use std::alloc::Global;

/// The file that is read next is the project's, the script's, or the question's.
#[derive(Drop)]
pub(crate) enum Explore<'a, P: Drop> {
    /// Nothing was read yet. These are the names of the files.
    All {
        project: &'a str,
        script: &'a str,
        question: &'a str,
        progress: P,
    },
    /// The project is accepted.
    OnProject {
        project: Project,
        script: &'a str,
        question: &'a str,
        progress: P,
    },
    /// The project and the script are accepted.
    OnScript {
        project: Project,
        script: Script,
        question: &'a str,
        progress: P,
    },
}

impl<'a, P: Progress + Drop> FileCommand for Explore<'a, P> {
    type Text = NoLines;

    ghost file = { explore_file };

    ghost next = { explore_next };

    ghost left = { explore_left };

    fn name(&self) -> &str {
        match self {
            Explore::All { project, .. } => project,
            Explore::OnProject { script, .. } => script,
            Explore::OnScript { question, .. } => question,
        }
    }

    fn judge(self, alloc: Global, bytes: Vec<u8>) -> Result<Step<Self, NoLines>, Memory> {
        match self {
            Explore::All {
                script,
                question,
                progress,
                ..
            } => match judge_project(alloc, &bytes)? {
                Judged::Accepted(project) => Ok(Step::Read(Explore::OnProject {
                    project,
                    script,
                    question,
                    progress,
                })),
                Judged::Refused(line) => Ok(Step::Say(Verdict::Project, line)),
            },
            Explore::OnProject {
                project,
                question,
                progress,
                ..
            } => match judge_script(alloc, &bytes)? {
                Judged::Accepted(script) => Ok(Step::Read(Explore::OnScript {
                    project,
                    script,
                    question,
                    progress,
                })),
                Judged::Refused(line) => Ok(Step::Say(Verdict::Script, line)),
            },
            Explore::OnScript {
                project,
                script,
                mut progress,
                ..
            } => match judge_question(alloc, &project, &bytes)? {
                Judged::Accepted(question) => {
                    let said = explored(alloc, project, &script, &question, &mut progress)?;
                    Ok(Step::Say(said.verdict, said.text))
                }
                Judged::Refused(line) => Ok(Step::Say(Verdict::Script, line)),
            },
        }
    }
}

/// Writes what is said of all journals of one file's script on another one's project, as a third file's question asks, by one put.
/// A file is read only if none before it is refused.
pub fn explore_script<P: Progress + Drop, F: Files, K: Sink>(
    alloc: Global,
    project: &str,
    script: &str,
    question: &str,
    progress: P,
    files: &mut F,
    sink: &mut K,
) -> Status
    ensures { Answered (explore_plan project.now script.now question.now)
        (call_of F.told F.failures files.old files.new K.held K.faults sink.old sink.new (ending_of result)) }
{
    answer(
        alloc,
        Explore::All {
            project,
            script,
            question,
            progress,
        },
        files,
        sink,
    )
}
