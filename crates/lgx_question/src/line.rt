// A line of a question.
ghost use Rattle.std.specs.Prelude.{◌≡◌, ◌<◌, ◌^◌, length, Ok, Err, OnOk, IfErr};
ghost use Rattle.spec_text.specs.TextLines.{words};
ghost use Rattle.spec_explore.specs.QuestionText.{within_said, read_question_line};
ghost use Rattle.lgx_question.specs.Reading.{IfCode, found_of_question, within_of_question};

use crate::error::LineError;
use crate::tests::{FoundNever, never_of};
use lgx_journal::{next_word, unsigned_of};
use lgx_num::{Items, Memory};
use lgx_watch::Names;
use spec_base::limits::{MAX_LINE_BYTES, MAX_QUESTION_LINES, MAX_QUESTION_TESTS};
use spec_explore::{Never, Question, QuestionCode};
use std::alloc::Global;
use std::marker::Model;

/// A question as far as it is read.
#[derive(Drop)]
pub(crate) struct Draft {
    pub(crate) within: Option<u32>,
    pub(crate) lines: Vec<Never>,
}

impl Model for Draft {
    ghost use Rattle.spec_explore.specs.declared.question.Question.{Question as Seen};

    ghost Value = { Seen };

    ghost view = { λ d. record { within = d.within; lines = d.lines.items } };
}

/// The ticks of a window, after the verb.
fn within_of(text: &[u8]) -> Option<u32>
    ensures { result ≡ within_said (words text.now) }
{
    let Some((number, after)) = next_word(text) else {
        return None;
    };
    if next_word(after).is_some() {
        return None;
    }
    unsigned_of(number)
}

/// Puts a window first.
fn add_within(draft: &mut Draft, ticks: u32) -> Result<(), LineError>
    ensures draft { OnOk result (within_of_question draft.old ticks ≡ Ok draft.new) }
    ensures code { IfErr result (λ e. IfCode e (λ code. within_of_question draft.old ticks ≡ Err code)) }
{
    if draft.within.is_some() || !draft.lines.is_empty() {
        return Err(LineError::Code(QuestionCode::Q4));
    }
    draft.within = Some(ticks);
    Ok(())
}

/// Puts tests last.
fn add_never(draft: &mut Draft, found: FoundNever) -> Result<(), LineError>
    ensures draft { OnOk result (found_of_question draft.old found ≡ Ok draft.new) }
    ensures code { IfErr result (λ e. IfCode e (λ code. found_of_question draft.old found ≡ Err code)) }
{
    let FoundNever { tests, program } = found;
    let Some(tests) = tests else {
        return Err(LineError::Code(QuestionCode::Q2));
    };
    let Some(program) = program else {
        return Err(LineError::Code(QuestionCode::Q3));
    };
    if draft.lines.len() >= MAX_QUESTION_LINES || tests.len() > MAX_QUESTION_TESTS {
        return Err(LineError::Code(QuestionCode::Q4));
    }
    match draft.lines.push(Never { tests, program }) {
        Ok(()) => Ok(()),
        Err(_) => Err(LineError::Memory),
    }
}

/// Puts what a line says to the question, or answers the line's first cause.
pub(crate) fn read_line(
    alloc: Global,
    names: &Names,
    draft: &mut Draft,
    line: &[u8],
) -> Result<(), LineError>
    requires watches { length names.now.watches < 2 ^ 32 }
    requires programs { length names.now.programs < 2 ^ 32 }
    ensures draft { OnOk result (read_question_line names.now draft.old line.now ≡ Ok draft.new) }
    ensures code { IfErr result (λ e. IfCode e (λ code. read_question_line names.now draft.old line.now ≡ Err code)) }
{
    if line.len() > MAX_LINE_BYTES {
        return Err(LineError::Code(QuestionCode::Q1));
    }
    let Some((verb, after)) = next_word(line) else {
        return Err(LineError::Code(QuestionCode::Q1));
    };
    if verb == b"within".as_slice() {
        let Some(ticks) = within_of(after) else {
            return Err(LineError::Code(QuestionCode::Q1));
        };
        return add_within(draft, ticks);
    }
    if verb != b"never".as_slice() {
        return Err(LineError::Code(QuestionCode::Q1));
    }
    let Some(found) = never_of(alloc, names, after)? else {
        return Err(LineError::Code(QuestionCode::Q1));
    };
    add_never(draft, found)
}
