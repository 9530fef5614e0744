// The files of `logix_cover P J`: a project and a journal.
ghost use Rattle.std.specs.Prelude.{◌≡◌, ◌≤◌, length, IfOk};
ghost use Rattle.spec_base.specs.declared.limits.TheConstants.{MAX_EVENTS};
ghost use Rattle.lgx_answer.specs.Endings.{ending_of};
ghost use Rattle.lgx_answer.specs.Answered.{Answered, call_of};
ghost use Rattle.lgx_cover.specs.CoverPlan.{cover_plan};
ghost use Rattle.lgx_cover.specs.CoverState.{cover_file, cover_next, cover_left};
ghost use Rattle.lgx_cover.specs.Texts.{cover_text};

use crate::covered::covered;
use crate::text_out::text_of;
use lgx_answer::{FileCommand, NoLines, Status, Step, Verdict, answer};
use lgx_io::{Files, Sink};
use lgx_journal::Journal;
use lgx_judge::{Judged, judge_journal, judge_project};
use lgx_num::{Items, Memory};
use lgx_project::Project;
use std::alloc::Global;

/// How often each instruction was executed by the run of a journal on a project.
fn cover_text(alloc: Global, project: Project, journal: &Journal) -> Result<Items<u8>, Memory>
    requires { length journal.now.events ≤ MAX_EVENTS }
    ensures { IfOk result (λ text. text ≡ cover_text project journal.now.events) }
{
    let coverage = covered(alloc, project, journal)?;
    let text = text_of(alloc, coverage.tables().as_slice())?;
    Ok(Items::of(text))
}

/// The project's file is to be read, or the journal's.
#[derive(Drop)]
pub(crate) enum Cover<'a> {
    /// Nothing was read yet. These are the names of the files.
    Both { project: &'a str, journal: &'a str },
    /// The project is accepted.
    OnProject { project: Project, journal: &'a str },
}

impl<'a> FileCommand for Cover<'a> {
    type Text = NoLines;

    ghost file = { cover_file };

    ghost next = { cover_next };

    ghost left = { cover_left };

    fn name(&self) -> &str {
        match self {
            Cover::Both { project, .. } => project,
            Cover::OnProject { journal, .. } => journal,
        }
    }

    fn judge(self, alloc: Global, bytes: Vec<u8>) -> Result<Step<Self, NoLines>, Memory> {
        match self {
            Cover::Both { journal, .. } => match judge_project(alloc, &bytes)? {
                Judged::Accepted(project) => Ok(Step::Read(Cover::OnProject { project, journal })),
                Judged::Refused(line) => Ok(Step::Say(Verdict::Project, line)),
            },
            Cover::OnProject { project, .. } => match judge_journal(alloc, &bytes)? {
                Judged::Accepted(journal) => {
                    let text = cover_text(alloc, project, &journal)?;
                    Ok(Step::Say(Verdict::Ok, text))
                }
                Judged::Refused(line) => Ok(Step::Say(Verdict::Script, line)),
            },
        }
    }
}

/// Writes how often each instruction was executed by the run of one file's journal on another one's project, by one put.
pub fn cover_journal<F: Files, K: Sink>(
    alloc: Global,
    project: &str,
    journal: &str,
    files: &mut F,
    sink: &mut K,
) -> Status
    ensures { Answered (cover_plan project.now journal.now)
        (call_of F.told F.failures files.old files.new K.held K.faults sink.old sink.new (ending_of result)) }
{
    answer(alloc, Cover::Both { project, journal }, files, sink)
}
