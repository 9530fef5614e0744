// The command `xref P`.
ghost use Rattle.std.specs.Prelude.{◌≡◌};
ghost use Rattle.lgx_answer.specs.Endings.{ending_of};
ghost use Rattle.lgx_answer.specs.Answered.{Answered, call_of};
ghost use Rattle.cmd_xref.specs.XrefPlan.{xref_judged, xref_plan};

use crate::xref_lines::XrefLines;
use lgx_answer::{FileCommand, Status, Step, Verdict, answer};
use lgx_io::{Files, Sink};
use lgx_judge::{Judged, judge_project};
use lgx_num::Memory;
use std::alloc::Global;

/// `xref P`: says of each tag which instructions write it and which read it.
#[derive(Drop)]
pub(crate) struct CrossReference<'a> {
    /// The name of the project's file.
    pub project: &'a str,
}

impl<'a> FileCommand for CrossReference<'a> {
    type Text = XrefLines;

    ghost file = { λ w. w.project.now };

    ghost next = { λ w bytes. xref_judged bytes };

    ghost left = { λ w. 0 };

    fn name(&self) -> &str {
        self.project
    }

    #[tactic(auto, using(lgx_judge::proofs::Follow::project_refused, lgx_judge::proofs::Follow::project_says))]
    fn judge(self, alloc: Global, bytes: Vec<u8>) -> Result<Step<Self, XrefLines>, Memory> {
        match judge_project(alloc, &bytes)? {
            Judged::Accepted(project) => {
                let lines = XrefLines::of(alloc, project)?;
                Ok(Step::Write(Verdict::Ok, lines))
            }
            Judged::Refused(line) => Ok(Step::Say(Verdict::Project, line)),
        }
    }
}

/// `xref P`: writes for each tag of a file's project a line with its name, a line for each instruction that writes it, and one
/// for each that reads it.
pub fn xref_project<F: Files, K: Sink>(
    alloc: Global,
    project: &str,
    files: &mut F,
    sink: &mut K,
) -> Status
    ensures { Answered (xref_plan project.now)
        (call_of F.told F.failures files.old files.new K.held K.faults sink.old sink.new (ending_of result)) }
{
    answer(alloc, CrossReference { project }, files, sink)
}
