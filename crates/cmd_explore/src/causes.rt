// The line that says why a file is no question.
ghost use Rattle.std.specs.Prelude.{◌≡◌, IfOk};
ghost use Rattle.cmd_explore.specs.QuestionCauses.{question_code, question_cause_line};

use lgx_num::Memory;
use lgx_watch::{push_count, push_word};
use spec_explore::{QuestionCode, QuestionFault};
use std::alloc::Global;

/// The code for which a line is none of a question.
fn question_code(code: QuestionCode) -> &'static [u8]
    ensures { result.now ≡ question_code code }
{
    match code {
        QuestionCode::Q1 => b"Q1",
        QuestionCode::Q2 => b"Q2",
        QuestionCode::Q3 => b"Q3",
        QuestionCode::Q4 => b"Q4",
    }
}

/// The line that says why a file is no question.
#[tactic(auto, unfolding(crate::specs::QuestionCauses::question_cause_line))]
pub(crate) fn question_cause_line(alloc: Global, fault: QuestionFault) -> Result<Vec<u8>, Memory>
    ensures { IfOk result (λ text. text.items ≡ question_cause_line fault) }
{
    let mut text = Vec::new(alloc);
    text.extend_from_slice(b"question")?;
    push_word(&mut text, question_code(fault.code))?;
    push_word(&mut text, b"line")?;
    push_count(&mut text, fault.line)?;
    text.push(b'\n')?;
    Ok(text)
}
