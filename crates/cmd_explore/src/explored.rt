// What is said of all journals of a script.
ghost use Rattle.std.specs.Prelude.{◌≡◌, IfOk};
ghost use Rattle.lgx_answer.specs.Plan.{Says};
ghost use Rattle.cmd_explore.specs.ExplorePlan.{answered, verdict_of};

use crate::text_out::told_text;
use lgx_answer::Verdict;
use lgx_explore::Progress;
use lgx_journal::Script;
use lgx_num::{Items, Memory};
use lgx_project::Project;
use lgx_question::Question;
use lgx_walker::{Told, law_of_scripts, tell};
use spec_base::limits::MAX_LAYER_STATES;
use std::alloc::Global;

/// A verdict with its text.
#[derive(Drop)]
pub(crate) struct Said {
    pub(crate) verdict: Verdict,
    pub(crate) text: Items<u8>,
}

/// The verdict of what is said.
fn verdict_of(told: &Told) -> Verdict
    ensures { result ≡ verdict_of told.now }
{
    match told {
        Told::Never => Verdict::Ok,
        Told::Witness(_, _) => Verdict::Breach,
        Told::Unknown(_) => Verdict::Unknown,
    }
}

/// What is said of all journals of a script on a project, whose actions come within the question's window: that no line of the
/// question ever holds; or a journal with the least number of processor steps after which one does; or that no line holds in fewer
/// steps than a number, with which there are more states than a layer may have.
#[tactic(auto, using(crate::proofs::Texts::answer_says))]
pub(crate) fn explored<P: Progress>(
    alloc: Global,
    project: Project,
    script: &Script,
    question: &Question,
    progress: &mut P,
) -> Result<Said, Memory>
    ensures { IfOk result (λ said. Says (answered project script.now question.now) said.verdict said.text) }
{
    law_of_scripts(script);
    let told = tell(alloc, project, script, question, MAX_LAYER_STATES, progress)?;
    let text = told_text(alloc, question, &told)?;
    Ok(Said {
        verdict: verdict_of(&told),
        text: Items::of(text),
    })
}
