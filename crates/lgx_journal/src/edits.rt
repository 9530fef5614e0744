// Reads the edits of an accept.
ghost use Rattle.std.specs.Prelude.{◌≡◌, ◌++◌, ◌∷◌, [], ◌≤◌, length, map, if◌then◌else◌, Some, None, option_map, IfOk, IfSome, IsTrue};
ghost use Rattle.std.specs.List.{prefix_len};
ghost use Rattle.lgx_rung.specs.Tokens.{is_blank};
ghost use Rattle.spec_base.specs.Pieces.{pieces};
ghost use Rattle.spec_machine.specs.Commands.{is_edit_count};
ghost use Rattle.spec_machine.specs.EditText.{trimmed};
ghost use Rattle.spec_machine.specs.declared.event.RungEdit.TheVariants.{Replace, Insert};
ghost use Rattle.spec_text.specs.TextLines.{words};
ghost use Rattle.spec_text.specs.ActionText.{text_edit_of, delete_of, edit_of, each_some, edits_of};
ghost use Rattle.lgx_journal.specs.Lines.{is_plain, is_part};

use crate::words::{next_word, split_word, unsigned_of};
use lgx_num::{Items, Memory, split_first};
use spec_base::limits::MAX_EDITS;
use spec_machine::{RungEdit, Text};
use std::alloc::Global;

/// Whether the byte is a blank of neutral text.
fn is_blank(byte: u8) -> bool
    ensures { result ≡ is_blank byte }
{
    byte == b' ' || byte == b'\t' || byte == b'\r' || byte == b'\n'
}

/// The number of blanks before the first byte that is none.
#[tactic(auto, using(crate::proofs::Prefixes::prefix_stops, crate::proofs::Prefixes::prefix_whole))]
fn blanks_before(text: &[u8]) -> usize
    ensures value { result ≡ prefix_len is_blank text.now }
    ensures bound { result ≤ length text.now }
{
    for (i, byte) in text.iter().enumerate() {
        if !is_blank(*byte) {
            return i;
        }
    }
    text.len()
}

/// The text without the blanks at its ends.
fn trimmed(text: &[u8]) -> &[u8]
    ensures { result.now ≡ trimmed text.now }
{
    let (_, front) = text.split_at(blanks_before(text));
    let mut len = front.len();
    while len > 0 && is_blank(front[len - 1]) {
        len -= 1;
    }
    let (kept, _) = front.split_at(len);
    kept
}

/// The text of an edit.
#[tactic(auto, using(crate::proofs::Trimmed::trimmed_is_text))]
fn text_of(alloc: Global, text: &[u8]) -> Result<Text, Memory>
    requires { IsTrue (is_part text.now) }
    ensures { IfOk result (λ t. t ≡ trimmed text.now) }
{
    Ok(Text::of(trimmed(text).to_vec(alloc)?))
}

/// The replacement of a rung, after its verb.
#[tactic(auto, using(crate::proofs::Trimmed::part_after))]
fn replace_of(alloc: Global, rest: &[u8]) -> Result<Option<RungEdit>, Memory>
    requires { IsTrue (is_part rest.now) }
    ensures { IfOk result (λ o. o ≡ text_edit_of (λ n t. Replace n t) rest.now) }
{
    let (number, text) = split_word(rest);
    let Some(index) = unsigned_of(number) else {
        return Ok(None);
    };
    Ok(Some(RungEdit::Replace(index, text_of(alloc, text)?)))
}

/// The insertion of a rung, after its verb.
#[tactic(auto, using(crate::proofs::Trimmed::part_after))]
fn insert_of(alloc: Global, rest: &[u8]) -> Result<Option<RungEdit>, Memory>
    requires { IsTrue (is_part rest.now) }
    ensures { IfOk result (λ o. o ≡ text_edit_of (λ n t. Insert n t) rest.now) }
{
    let (number, text) = split_word(rest);
    let Some(index) = unsigned_of(number) else {
        return Ok(None);
    };
    Ok(Some(RungEdit::Insert(index, text_of(alloc, text)?)))
}

/// The deletion of a rung, after its verb.
fn delete_of(rest: &[u8]) -> Option<RungEdit>
    ensures { result ≡ delete_of (words rest.now) }
{
    let (number, after) = next_word(rest)?;
    if next_word(after).is_some() {
        return None;
    }
    Some(RungEdit::Delete(unsigned_of(number)?))
}

/// The edit that a part is.
#[tactic(auto, using(crate::proofs::Trimmed::part_after, crate::proofs::Verbs::edit_replaces, crate::proofs::Verbs::edit_inserts, crate::proofs::Verbs::edit_deletes))]
fn edit_of(alloc: Global, part: &[u8]) -> Result<Option<RungEdit>, Memory>
    requires { IsTrue (is_part part.now) }
    ensures { IfOk result (λ o. o ≡ edit_of part.now) }
{
    let (verb, rest) = split_word(part);
    if verb == b"r".as_slice() {
        return replace_of(alloc, rest);
    }
    if verb == b"i".as_slice() {
        return insert_of(alloc, rest);
    }
    if verb == b"d".as_slice() {
        return Ok(delete_of(rest));
    }
    Ok(None)
}

/// Adds the edit that a part is after the others, if it is one.
fn add_edit(alloc: Global, edits: &mut Vec<RungEdit>, part: &[u8]) -> Result<bool, Memory>
    requires { IsTrue (is_part part.now) }
    ensures { IfOk result (λ added. (if added then Some edits.new.items else None) ≡ option_map (λ e. edits.old.items ++ e ∷ []) (edit_of part.now)) }
{
    match edit_of(alloc, part)? {
        Some(edit) => {
            edits.push(edit)?;
            Ok(true)
        }
        None => Ok(false),
    }
}

/// Adds the edits that the parts of a text are after the others, if all are edits.
#[tactic(auto, using(crate::proofs::Parts::part_before, crate::proofs::Parts::part_whole, crate::proofs::Parts::part_missing, crate::proofs::Parts::part_last))]
fn add_parts(alloc: Global, edits: &mut Vec<RungEdit>, text: &[u8]) -> Result<bool, Memory>
    requires { IsTrue (is_plain text.now) }
    ensures { IfOk result (λ added. (if added then Some edits.new.items else None) ≡ option_map (λ es. edits.old.items ++ es) (each_some (map edit_of (pieces 124 text.now)))) }
{
    let mut rest = text;
    while let Some((part, after)) = split_first(rest, b'|') {
        if !add_edit(alloc, edits, part)? {
            return Ok(false);
        }
        rest = after;
    }
    add_edit(alloc, edits, rest)
}

/// The edits that the parts of a text are.
fn read_parts(alloc: Global, text: &[u8]) -> Result<Option<Vec<RungEdit>>, Memory>
    requires { IsTrue (is_plain text.now) }
    ensures { IfOk result (λ o. option_map (λ v. v.items) o ≡ each_some (map edit_of (pieces 124 text.now))) }
{
    let mut edits = Vec::new(alloc);
    if add_parts(alloc, &mut edits, text)? {
        return Ok(Some(edits));
    }
    Ok(None)
}

/// The edits of an accept.
#[tactic(auto, using(crate::proofs::Parts::edits_few, crate::proofs::Parts::edits_none, crate::proofs::Parts::edits_many))]
pub(crate) fn edits_of(alloc: Global, text: &[u8]) -> Result<Option<Items<RungEdit>>, Memory>
    requires { IsTrue (is_plain text.now) }
    ensures edits { IfOk result (λ o. o ≡ edits_of text.now) }
    ensures count { IfOk result (λ o. IfSome o (λ es. IsTrue (is_edit_count (length es)))) }
{
    let Some(edits) = read_parts(alloc, text)? else {
        return Ok(None);
    };
    let count = edits.len();
    if count == 0 {
        return Ok(None);
    }
    if count > MAX_EDITS {
        return Ok(None);
    }
    Ok(Some(Items::of(edits)))
}
