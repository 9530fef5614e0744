// The command `text`: the rungs of a project.
ghost use Rattle.std.specs.Prelude.{◌≡◌};
ghost use Rattle.cmd_project.specs.TextPlan.{text_judged};
ghost use Rattle.lgx_answer.specs.Endings.{ending_of};
ghost use Rattle.lgx_answer.specs.Answered.{Answered, call_of};
ghost use Rattle.cmd_project.specs.TextPlan.{text_plan};

use crate::lines::TextLines;
use lgx_answer::{FileCommand, Status, Step, Verdict, answer};
use lgx_io::{Files, Sink};
use lgx_judge::{Judged, judge_project};
use lgx_num::Memory;
use std::alloc::Global;

/// `text P`: writes the rungs of each routine in their canonical spelling, each on a line.
#[derive(Drop)]
pub(crate) struct Text<'a> {
    /// The name of the project's file.
    pub project: &'a str,
}

impl<'a> FileCommand for Text<'a> {
    type Text = TextLines;

    ghost file = { λ w. w.project.now };

    ghost next = { λ w bytes. text_judged bytes };

    ghost left = { λ w. 0 };

    fn name(&self) -> &str {
        self.project
    }

    #[tactic(auto, using(lgx_judge::proofs::Follow::project_refused, lgx_judge::proofs::Follow::project_says))]
    fn judge(self, alloc: Global, bytes: Vec<u8>) -> Result<Step<Self, TextLines>, Memory> {
        match judge_project(alloc, &bytes) {
            Ok(Judged::Accepted(project)) => Ok(Step::Write(
                Verdict::Ok,
                TextLines::of(alloc, project),
            )),
            Ok(Judged::Refused(line)) => Ok(Step::Say(Verdict::Project, line)),
            Err(Memory) => Err(Memory),
        }
    }
}

/// `text P`: writes the rungs of a file's project in their canonical spelling.
pub fn spell_project<F: Files, K: Sink>(
    alloc: Global,
    project: &str,
    files: &mut F,
    sink: &mut K,
) -> Status
    ensures { Answered (text_plan project.now)
        (call_of F.told F.failures files.old files.new K.held K.faults sink.old sink.new (ending_of result)) }
{
    answer(alloc, Text { project }, files, sink)
}
