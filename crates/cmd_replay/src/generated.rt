// The command `gen N`.
ghost use Rattle.std.specs.Prelude.{◌≡◌, List, ℕ, Ok};
ghost use Rattle.lgx_answer.specs.Plan.{Says};
ghost use Rattle.lgx_answer.specs.Endings.{ending_of};
ghost use Rattle.lgx_answer.specs.Answered.{Answered, call_of};
ghost use Rattle.cmd_replay.specs.GenPlan.{journal_made, gen_plan};
ghost use Rattle.cmd_replay.specs.Rest.{counts_rest};

use crate::counts::{Counts, counts_of};
use lgx_answer::{Status, Verdict, say, write};
use lgx_gen::{gen_journal, gen_project};
use lgx_io::{Files, Sink};
use lgx_judge::{Judged, judge_journal, judge_project};
use lgx_num::{Items, Memory};
use lgx_project::Project;
use std::alloc::Global;

/// What the texts that a number makes come to.
#[derive(Drop)]
enum Made {
    /// One of them is refused, with this line.
    Refused(Verdict, Items<u8>),
    Counted(Counts),
}

/// What a number's journal comes to on its project.
fn journal_made(alloc: Global, number: u32, project: Project) -> Result<Made, Memory>
    ensures refused { (said : Verdict) (line : List ℕ) → result ≡ Ok (Made.Refused said line) → Says (journal_made number project) said line }
    ensures counted { (lines : Counts) → result ≡ Ok (Made.Counted lines) → Says (journal_made number project) Verdict.Ok (counts_rest lines) }
{
    let text = gen_journal(alloc, number)?;
    match judge_journal(alloc, &text)? {
        Judged::Accepted(journal) => {
            let counts = counts_of(alloc, number, project, &journal)?;
            Ok(Made::Counted(counts))
        }
        Judged::Refused(line) => Ok(Made::Refused(Verdict::Script, line)),
    }
}

/// What a number's texts come to. The journal is made once the project is accepted.
fn made_by(alloc: Global, number: u32) -> Result<Made, Memory>
    ensures refused { (said : Verdict) (line : List ℕ) → result ≡ Ok (Made.Refused said line) → Says (gen_plan number) said line }
    ensures counted { (lines : Counts) → result ≡ Ok (Made.Counted lines) → Says (gen_plan number) Verdict.Ok (counts_rest lines) }
{
    let text = gen_project(alloc, number)?;
    match judge_project(alloc, &text)? {
        Judged::Accepted(project) => journal_made(alloc, number, project),
        Judged::Refused(line) => Ok(Made::Refused(Verdict::Project, line)),
    }
}

/// `gen N`: runs the journal that a number makes on the project that it makes, and writes how many lines the report has, and its
/// end line, or why one of the two is refused. No file is read.
pub fn generate<F: Files, K: Sink>(alloc: Global, number: u32, files: &F, sink: &mut K) -> Status
    ensures { Answered (gen_plan number)
        (call_of F.told F.failures files.now files.now K.held K.faults sink.old sink.new (ending_of result)) }
{
    match made_by(alloc, number) {
        Ok(Made::Refused(verdict, line)) => say(verdict, line.as_slice(), files, sink),
        Ok(Made::Counted(counts)) => write(alloc, Verdict::Ok, counts, files, sink),
        Err(Memory) => Status::Memory,
    }
}
