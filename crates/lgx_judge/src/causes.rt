// The lines that say why a file is no project, no journal or no script.
ghost use Rattle.std.specs.Prelude.{◌≡◌, ◌++◌, IfOk, OnOk};
ghost use Rattle.lgx_judge.specs.CauseLines.{path_words, inner_words, line_words, project_cause_line, journal_cause_line, script_cause_line};
ghost use Rattle.lgx_watch.specs.Spaces.{after_spaces};

use crate::codes::{journal_code, project_code, tag_code, type_code};
use lgx_num::Memory;
use lgx_watch::{push_check_fault, push_count, push_text_fault, push_word};
use spec_project::{Inner, ProjectFault};
use spec_text::JournalFault;
use std::alloc::Global;

/// Adds a path, unless it is empty.
fn push_path(text: &mut Vec<u8>, path: &[u8]) -> Result<(), Memory>
    ensures { OnOk result (text.new.items ≡ text.old.items ++ after_spaces (path_words path.now)) }
{
    match path {
        [] => Ok(()),
        [_, ..] => push_word(text, path),
    }
}

/// Adds what is refused.
fn push_inner(text: &mut Vec<u8>, inner: Inner) -> Result<(), Memory>
    ensures { OnOk result (text.new.items ≡ text.old.items ++ after_spaces (inner_words inner)) }
{
    match inner {
        Inner::Nothing => Ok(()),
        Inner::OfType(code) => push_word(text, type_code(code)),
        Inner::OfTag(code) => push_word(text, tag_code(code)),
        Inner::OfText(fault) => push_text_fault(text, fault),
        Inner::OfCheck(fault) => push_check_fault(text, fault),
    }
}

/// Adds the code of a line that is refused, and its number.
fn push_line(text: &mut Vec<u8>, fault: JournalFault) -> Result<(), Memory>
    ensures { OnOk result (text.new.items ≡ text.old.items ++ after_spaces (line_words fault)) }
{
    push_word(text, journal_code(fault.code))?;
    push_word(text, b"line")?;
    push_count(text, fault.line)
}

/// The line that says why a file is no project, with an LF at its end.
#[tactic(auto, using(crate::proofs::CauseLine::cause_line), unfolding(crate::specs::CauseLines::project_cause_line))]
pub fn project_cause_line(alloc: Global, fault: &ProjectFault) -> Result<Vec<u8>, Memory>
    ensures { IfOk result (λ text. text.items ≡ project_cause_line fault.now) }
{
    let mut text = Vec::new(alloc);
    text.extend_from_slice(b"project")?;
    push_word(&mut text, project_code(fault.code))?;
    push_path(&mut text, fault.path.as_slice())?;
    push_inner(&mut text, fault.inner)?;
    text.push(b'\n')?;
    Ok(text)
}

/// The line that says why a file is no journal.
#[tactic(auto, unfolding(crate::specs::CauseLines::journal_cause_line))]
pub(crate) fn journal_cause_line(alloc: Global, fault: JournalFault) -> Result<Vec<u8>, Memory>
    ensures { IfOk result (λ text. text.items ≡ journal_cause_line fault) }
{
    let mut text = Vec::new(alloc);
    text.extend_from_slice(b"journal")?;
    push_line(&mut text, fault)?;
    text.push(b'\n')?;
    Ok(text)
}

/// The line that says why a file is no script.
#[tactic(auto, unfolding(crate::specs::CauseLines::script_cause_line))]
pub(crate) fn script_cause_line(alloc: Global, fault: JournalFault) -> Result<Vec<u8>, Memory>
    ensures { IfOk result (λ text. text.items ≡ script_cause_line fault) }
{
    let mut text = Vec::new(alloc);
    text.extend_from_slice(b"script")?;
    push_line(&mut text, fault)?;
    text.push(b'\n')?;
    Ok(text)
}
