// Reads a question.
ghost use Rattle.std.specs.Prelude.{◌≡◌, ◌<◌, ◌^◌, length, Ok, Err, IfOk, OnOk, IfErr};
ghost use Rattle.spec_text.specs.TextLines.{lines};
ghost use Rattle.spec_explore.specs.QuestionText.{question_from, question_of, unasked};
ghost use Rattle.lgx_question.specs.Reading.{IfLine};

use crate::error::{LineError, QuestionError, at_line};
use crate::line::{Draft, read_line};
use lgx_journal::{is_last, is_skipped, next_line};
use lgx_num::Items;
use lgx_watch::Names;
use spec_explore::{Question, QuestionCode};
use std::alloc::Global;

/// Reads all lines. A question that asks nothing is refused at `end`, and one without `end` at the line after the last.
fn read_lines(
    alloc: Global,
    names: &Names,
    draft: &mut Draft,
    text: &[u8],
) -> Result<(), QuestionError>
    requires watches { length names.now.watches < 2 ^ 32 }
    requires programs { length names.now.programs < 2 ^ 32 }
    ensures draft { OnOk result (question_from names.now 1 draft.old (lines text.now) ≡ Ok draft.new) }
    ensures fault { IfErr result (λ e. IfLine e (λ fault. question_from names.now 1 draft.old (lines text.now) ≡ Err fault)) }
{
    let mut number = 0u64;
    let mut rest = text;
    while let Some((line, after)) = next_line(rest) {
        number += 1;
        rest = after;
        if is_skipped(line) {
            continue;
        }
        if is_last(line) {
            if draft.lines.is_empty() {
                return Err(at_line(LineError::Code(QuestionCode::Q4), number));
            }
            return Ok(());
        }
        if let Err(error) = read_line(alloc, names, draft, line) {
            return Err(at_line(error, number));
        }
    }
    Err(at_line(LineError::Code(QuestionCode::Q1), number + 1))
}

/// The question that a text is, or its first line with a cause and the line's first cause. Names are those of a project:
/// watched places are found by their texts, and programs by their names; case doesn't matter.
pub fn read_question(alloc: Global, names: &Names, bytes: &[u8]) -> Result<Question, QuestionError>
    requires watches { length names.now.watches < 2 ^ 32 }
    requires programs { length names.now.programs < 2 ^ 32 }
    ensures question { IfOk result (λ question. question_of names.now bytes.now ≡ Ok question) }
    ensures fault { IfErr result (λ e. IfLine e (λ fault. question_of names.now bytes.now ≡ Err fault)) }
{
    let mut draft = Draft {
        within: None,
        lines: Vec::new(alloc),
    };
    read_lines(alloc, names, &mut draft, bytes)?;
    let Draft { within, lines } = draft;
    Ok(Question {
        within,
        lines: Items::of(lines),
    })
}
