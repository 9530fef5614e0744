// What the file of a question is judged to be.
ghost use Rattle.std.specs.Prelude.{◌≡◌, ◌<◌, ◌^◌, length, List, ℕ, Ok, IfOk};
ghost use Rattle.spec_explore.specs.QuestionText.{question_of};
ghost use Rattle.spec_text.specs.ReportText.{names_of};
ghost use Rattle.cmd_explore.specs.QuestionCauses.{IsNoQuestion};

use crate::causes::question_cause_line;
use lgx_judge::Judged;
use lgx_num::{Items, Memory};
use lgx_project::Project;
use lgx_question::{Question, QuestionError, read_question};
use lgx_record::names_of;
use lgx_watch::Names;
use std::alloc::Global;

/// The names of a project. There are not too many for their numbers.
#[tactic(auto, using(crate::proofs::Named::few_watches, crate::proofs::Named::few_programs))]
fn names_in(alloc: Global, project: &Project) -> Result<Names, Memory>
    ensures names { IfOk result (λ names. names ≡ names_of project.now) }
    ensures watches { IfOk result (λ names. length names.watches < 2 ^ 32) }
    ensures programs { IfOk result (λ names. length names.programs < 2 ^ 32) }
{
    let parts = project.parts();
    parts.law_of_validity();
    names_of(alloc, parts)
}

/// Whether the bytes are a question on a project.
pub(crate) fn judge_question(
    alloc: Global,
    project: &Project,
    bytes: &[u8],
) -> Result<Judged<Question>, Memory>
    ensures accepted { (question : Question) → result ≡ Ok (Judged.Accepted question) → question_of (names_of project.now) bytes.now ≡ Ok question }
    ensures refused { (line : List ℕ) → result ≡ Ok (Judged.Refused line) → IsNoQuestion project.now bytes.now line }
{
    let names = names_in(alloc, project)?;
    match read_question(alloc, &names, bytes) {
        Ok(question) => Ok(Judged::Accepted(question)),
        Err(QuestionError::Line(fault)) => {
            let line = question_cause_line(alloc, fault)?;
            Ok(Judged::Refused(Items::of(line)))
        }
        Err(QuestionError::Memory) => Err(Memory),
    }
}
