// The text of what is said.
ghost use Rattle.std.specs.Prelude.{◌≡◌, ◌+◌, ℕ, ◌++◌, length, Ok, IfOk, OnOk};
ghost use Rattle.spec_text.specs.JournalText.{journal_of};
ghost use Rattle.lgx_journal.specs.Written.{IsReadable};
ghost use Rattle.lgx_watch.specs.Spaces.{after_spaces};
ghost use Rattle.cmd_explore.specs.ToldTexts.{never_line, unknown_line, moment_words, comment_line, witness_text, IsToldText};

use crate::counts::{Counts, counts_of};
use lgx_journal::{Journal, write_journal};
use lgx_num::Memory;
use lgx_question::Question;
use lgx_walker::Told;
use lgx_watch::{push_count, push_word};
use std::alloc::Global;

/// `never N`.
#[tactic(auto, unfolding(crate::specs::ToldTexts::never_line))]
fn never_line(alloc: Global, lines: usize) -> Result<Vec<u8>, Memory>
    ensures { IfOk result (λ text. text.items ≡ never_line lines) }
{
    let mut text = Vec::new(alloc);
    text.extend_from_slice(b"never")?;
    push_count(&mut text, lines as u64)?;
    text.push(b'\n')?;
    Ok(text)
}

/// `unknown K`.
#[tactic(auto, unfolding(crate::specs::ToldTexts::unknown_line))]
fn unknown_line(alloc: Global, steps: u32) -> Result<Vec<u8>, Memory>
    ensures { IfOk result (λ text. text.items ≡ unknown_line steps) }
{
    let mut text = Vec::new(alloc);
    text.extend_from_slice(b"unknown")?;
    push_count(&mut text, u64::from(steps))?;
    text.push(b'\n')?;
    Ok(text)
}

/// Adds ` after step K, tick T`.
fn push_moment(text: &mut Vec<u8>, counts: Counts) -> Result<(), Memory>
    ensures { OnOk result (text.new.items ≡ text.old.items ++ after_spaces (moment_words counts.steps counts.ticks)) }
{
    push_word(text, b"after")?;
    push_word(text, b"step")?;
    push_count(text, counts.steps)?;
    text.push(b',')?;
    push_word(text, b"tick")?;
    push_count(text, counts.ticks)?;
    Ok(())
}

/// `# line L after step K, tick T`.
#[tactic(auto, unfolding(crate::specs::ToldTexts::comment_line))]
fn comment_line(alloc: Global, line: u64, counts: Counts) -> Result<Vec<u8>, Memory>
    ensures { IfOk result (λ text. text.items ≡ comment_line line counts.steps counts.ticks) }
{
    let mut text = Vec::new(alloc);
    text.extend_from_slice(b"#")?;
    push_word(&mut text, b"line")?;
    push_count(&mut text, line)?;
    push_moment(&mut text, counts)?;
    text.push(b'\n')?;
    Ok(text)
}

/// A journal after whose last event the line with this number, from 0, holds.
#[tactic(auto, using(crate::proofs::Comments::read_behind))]
fn witness_text(alloc: Global, journal: &Journal, line: u32) -> Result<Vec<u8>, Memory>
    ensures text { IfOk result (λ text. text.items ≡ witness_text journal.now.events line) }
    ensures read_back { IfOk result (λ text. IsReadable journal.now.events → journal_of text.items ≡ Ok journal.now.events) }
{
    let mut text = comment_line(alloc, u64::from(line) + 1, counts_of(journal))?;
    let events = write_journal(alloc, journal)?;
    text.extend_from_slice(&events)?;
    Ok(text)
}

/// The text of what is said of a question.
#[tactic(auto, using(crate::proofs::Texts::never_told, crate::proofs::Texts::witness_told, crate::proofs::Texts::unknown_told))]
pub(crate) fn told_text(alloc: Global, question: &Question, told: &Told) -> Result<Vec<u8>, Memory>
    ensures { IfOk result (λ text. IsToldText question.now told.now text.items) }
{
    match told {
        Told::Never => never_line(alloc, question.lines.len()),
        Told::Witness(journal, line) => witness_text(alloc, journal, *line),
        Told::Unknown(steps) => unknown_line(alloc, *steps),
    }
}
