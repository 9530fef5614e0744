// The forms of a report's lines.
ghost use Rattle.std.specs.Prelude.{◌≡◌, map, codes, IfOk};
ghost use Rattle.std.specs.Str.{bytes_eq};
ghost use Rattle.spec_base.specs.Pieces.{pieces};
ghost use Rattle.lgx_chart.specs.Forms.{begun, begin_of, is_number, is_answer, reply_of, is_severity, is_fault_number, is_program, are_fault_words, fault_of, set_of, note_of, entry_of, is_mode, are_end_words, end_at, end_of};

use crate::entry::{End, Entry, Note};
use crate::words::{all_owned, are_words, is_word, owned, words_of};
use lgx_journal::{signed_of, unsigned_of};
use lgx_num::{Memory, is_name, split_first};
use std::alloc::Global;

/// The begin that these words give.
fn begun(alloc: Global, task: &[u8], program: &[u8], version: &[u8]) -> Result<Option<Note>, Memory>
    ensures { IfOk result (λ note. note ≡ begun task.now program.now version.now) }
{
    let Some(version) = unsigned_of(version) else {
        return Ok(None);
    };
    if !is_name(task) {
        return Ok(None);
    }
    if !is_name(program) {
        return Ok(None);
    }
    Ok(Some(Note::Begin {
        task: owned(alloc, task)?,
        program: owned(alloc, program)?,
        version,
    }))
}

/// What `TASK PROGRAM VERSION` says after `begin`; None if the words have another form.
fn begin_of(alloc: Global, words: &[&[u8]]) -> Result<Option<Note>, Memory>
    ensures { IfOk result (λ note. note ≡ begin_of (map (λ w. w.now) words.now)) }
{
    match words {
        [] => Ok(None),
        [_] => Ok(None),
        [_, _] => Ok(None),
        [task, program, version] => begun(alloc, task, program, version),
        [_, _, _, _, ..] => Ok(None),
    }
}

/// A word that went out, or the number of an accept
fn is_number(word: &[u8]) -> bool
    ensures { result ≡ is_number word.now }
{
    signed_of(word).is_some() || unsigned_of(word).is_some()
}

/// Whether a word says that all went well.
fn is_ok(word: &[u8]) -> bool
    ensures { result ≡ bytes_eq word.now (codes "ok") }
{
    word == b"ok".as_slice()
}

/// Whether a word says that an action was held back.
fn is_held(word: &[u8]) -> bool
    ensures { result ≡ bytes_eq word.now (codes "held") }
{
    word == b"held".as_slice()
}

/// Whether a word says that a cause follows.
fn is_refused(word: &[u8]) -> bool
    ensures { result ≡ bytes_eq word.now (codes "refused") }
{
    word == b"refused".as_slice()
}

/// `ok`, `ok N`, `held`, or `refused` and the words of a cause
fn is_answer(words: &[&[u8]]) -> bool
    ensures { result ≡ is_answer (map (λ w. w.now) words.now) }
{
    match words {
        [] => false,
        [word] => is_ok(word) || is_held(word),
        [word, number] => (is_ok(word) && is_number(number))
            || (is_refused(word) && is_word(number)),
        [word, cause @ ..] => is_refused(word) && are_words(cause),
    }
}

/// What `LANE ANSWER` says after `reply`; None if the words have another form.
fn reply_of(alloc: Global, words: &[&[u8]]) -> Result<Option<Note>, Memory>
    ensures { IfOk result (λ note. note ≡ reply_of (map (λ w. w.now) words.now)) }
{
    let [lane, answer @ ..] = words else {
        return Ok(None);
    };
    if unsigned_of(lane).is_none() {
        return Ok(None);
    }
    if !is_answer(answer) {
        return Ok(None);
    }
    Ok(Some(Note::Reply(all_owned(alloc, words)?)))
}

/// Whether a word is a severity, `minor` or `major`.
fn is_severity(word: &[u8]) -> bool
    ensures { result ≡ is_severity word.now }
{
    word == b"minor".as_slice() || word == b"major".as_slice()
}

/// Whether a word is a fault's `TYPE/CODE`.
#[tactic(auto, using(crate::proofs::WordLists::three_numbers))]
fn is_fault_number(word: &[u8]) -> bool
    ensures { result ≡ is_fault_number word.now }
{
    let Some((kind, code)) = split_first(word, b'/') else {
        return false;
    };
    if split_first(code, b'/').is_some() {
        return false;
    }
    unsigned_of(kind).is_some() && unsigned_of(code).is_some()
}

/// A program's name, or `-` for none
fn is_program(word: &[u8]) -> bool
    ensures { result ≡ is_program word.now }
{
    is_name(word) || word == b"-".as_slice()
}

/// Whether these are the words of a fault.
fn are_fault_words(severity: &[u8], number: &[u8], task: &[u8], program: &[u8]) -> bool
    ensures { result ≡ are_fault_words severity.now number.now task.now program.now }
{
    is_severity(severity) && is_fault_number(number) && is_name(task) && is_program(program)
}

/// `SEVERITY TYPE/CODE TASK PROGRAM`
fn fault_of(alloc: Global, words: &[&[u8]]) -> Result<Option<Note>, Memory>
    ensures { IfOk result (λ note. note ≡ fault_of (map (λ w. w.now) words.now)) }
{
    match words {
        [] => Ok(None),
        [_] => Ok(None),
        [_, _] => Ok(None),
        [_, _, _] => Ok(None),
        [severity, number, task, program] => {
            if are_fault_words(severity, number, task, program) {
                return Ok(Some(Note::Fault(all_owned(alloc, words)?)));
            }
            Ok(None)
        }
        [_, _, _, _, _, ..] => Ok(None),
    }
}

/// What `WATCH VALUE` says after `set`; None if the words have another form.
fn set_of(alloc: Global, words: &[&[u8]]) -> Result<Option<Note>, Memory>
    ensures { IfOk result (λ note. note ≡ set_of (map (λ w. w.now) words.now)) }
{
    let [watch, value] = words else {
        return Ok(None);
    };
    let Some(value) = signed_of(value) else {
        return Ok(None);
    };
    if !is_word(watch) {
        return Ok(None);
    }
    Ok(Some(Note::Set {
        watch: owned(alloc, watch)?,
        value,
    }))
}

/// What a line says by the words after its numbers.
fn note_of(alloc: Global, kind: &[u8], words: &[&[u8]]) -> Result<Option<Note>, Memory>
    ensures { IfOk result (λ note. note ≡ note_of kind.now (map (λ w. w.now) words.now)) }
{
    if kind == b"begin".as_slice() {
        return begin_of(alloc, words);
    }
    if kind == b"reply".as_slice() {
        return reply_of(alloc, words);
    }
    if kind == b"fault".as_slice() {
        return fault_of(alloc, words);
    }
    if kind == b"set".as_slice() {
        return set_of(alloc, words);
    }
    Ok(None)
}

/// What a line before the end line says by its words.
#[tactic(auto, using(crate::proofs::WordLists::entry_short))]
fn entry_of(alloc: Global, words: &[&[u8]]) -> Result<Option<Entry>, Memory>
    ensures { IfOk result (λ entry. entry ≡ entry_of (map (λ w. w.now) words.now)) }
{
    let [tick, step, kind, others @ ..] = words else {
        return Ok(None);
    };
    let Some(tick) = unsigned_of(tick) else {
        return Ok(None);
    };
    let Some(step) = unsigned_of(step) else {
        return Ok(None);
    };
    let Some(note) = note_of(alloc, kind, others)? else {
        return Ok(None);
    };
    Ok(Some(Entry { tick, step, note }))
}

/// Whether a word is a mode: `program`, `run` or `faulted`.
fn is_mode(word: &[u8]) -> bool
    ensures { result ≡ is_mode word.now }
{
    word == b"program".as_slice() || word == b"run".as_slice() || word == b"faulted".as_slice()
}

/// Whether these are the words of an end line beside its numbers.
fn are_end_words(first: &[u8], mode: &[u8], lost: &[u8]) -> bool
    ensures { result ≡ are_end_words first.now mode.now lost.now }
{
    first == b"end".as_slice() && is_mode(mode) && lost == b"lost".as_slice()
}

/// The end that these words give.
fn end_at(
    alloc: Global,
    tick: &[u8],
    step: &[u8],
    mode: &[u8],
    count: &[u8],
) -> Result<Option<End>, Memory>
    ensures { IfOk result (λ end. end ≡ end_at tick.now step.now mode.now count.now) }
{
    let Some(tick) = unsigned_of(tick) else {
        return Ok(None);
    };
    let Some(step) = unsigned_of(step) else {
        return Ok(None);
    };
    let Some(lost) = unsigned_of(count) else {
        return Ok(None);
    };
    Ok(Some(End {
        tick,
        step,
        mode: owned(alloc, mode)?,
        lost,
    }))
}

/// `end TICK STEP MODE lost N`
fn end_of(alloc: Global, words: &[&[u8]]) -> Result<Option<End>, Memory>
    ensures { IfOk result (λ end. end ≡ end_of (map (λ w. w.now) words.now)) }
{
    let [end, tick, step, mode, lost, count] = words else {
        return Ok(None);
    };
    if !are_end_words(end, mode, lost) {
        return Ok(None);
    }
    end_at(alloc, tick, step, mode, count)
}

/// What a line before the end line says.
pub(crate) fn line_entry(alloc: Global, line: &[u8]) -> Result<Option<Entry>, Memory>
    ensures { IfOk result (λ entry. entry ≡ entry_of (pieces 32 line.now)) }
{
    let words = words_of(alloc, line)?;
    entry_of(alloc, &words)
}

/// The end that a line gives.
pub(crate) fn line_end(alloc: Global, line: &[u8]) -> Result<Option<End>, Memory>
    ensures { IfOk result (λ end. end ≡ end_of (pieces 32 line.now)) }
{
    let words = words_of(alloc, line)?;
    end_of(alloc, &words)
}
