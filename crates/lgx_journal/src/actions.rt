// Reads an action.
ghost use Rattle.std.specs.Prelude.{◌≡◌, ℕ, List, [], ◌∷◌, codes, IfOk, IsTrue};
ghost use Rattle.spec_text.specs.TextLines.{words, first_word, after_word};
ghost use Rattle.spec_text.specs.ActionText.{name_of, one_word_of, word_out_of, word_in_of, install_of, command_of, accept_of, action_of};
ghost use Rattle.lgx_journal.specs.Lines.{is_plain};

use crate::edits::edits_of;
use crate::words::{next_word, signed_of, split_word, unsigned_of};
use lgx_num::{Memory, Name};
use spec_machine::{Accept, Action};
use std::alloc::Global;

/// The name that a word is.
fn name_of(word: &[u8]) -> Option<Name>
    ensures { result ≡ name_of word.now }
{
    Name::read(word)
}

/// `force enable` and its kin, by their second word.
fn force_word(word: &[u8]) -> Option<Action>
    ensures { result ≡ one_word_of (codes "force") word.now }
{
    if word == b"enable".as_slice() {
        return Some(Action::ForceEnable);
    }
    if word == b"disable".as_slice() {
        return Some(Action::ForceDisable);
    }
    if word == b"remove".as_slice() {
        return Some(Action::ForceRemove);
    }
    None
}

/// `mode run` and `mode program`, by their second word.
fn mode_word(word: &[u8]) -> Option<Action>
    ensures { result ≡ one_word_of (codes "mode") word.now }
{
    if word == b"run".as_slice() {
        return Some(Action::ModeRun);
    }
    if word == b"program".as_slice() {
        return Some(Action::ModeProgram);
    }
    None
}

/// The actions of a verb and one word.
#[tactic(auto, using(crate::proofs::Verbs::action_tests, crate::proofs::Verbs::action_untests, crate::proofs::Verbs::action_assembles, crate::proofs::Verbs::action_cancels, crate::proofs::Verbs::action_forces, crate::proofs::Verbs::action_modes))]
fn one_word_of(verb: &[u8], word: &[u8]) -> Option<Action>
    ensures { result ≡ one_word_of verb.now word.now }
{
    if verb == b"test".as_slice() {
        return Some(Action::Test(name_of(word)?));
    }
    if verb == b"untest".as_slice() {
        return Some(Action::Untest(name_of(word)?));
    }
    if verb == b"assemble".as_slice() {
        return Some(Action::Assemble(name_of(word)?));
    }
    if verb == b"cancel".as_slice() {
        return Some(Action::Cancel(name_of(word)?));
    }
    if verb == b"force".as_slice() {
        return force_word(word);
    }
    if verb == b"mode".as_slice() {
        return mode_word(word);
    }
    None
}

/// `out CONN WORD`, after the verb.
fn word_out_of(conn: &[u8], word: &[u8]) -> Option<Action>
    ensures { result ≡ word_out_of conn.now word.now }
{
    let conn = name_of(conn)?;
    let word = unsigned_of(word)?;
    Some(Action::WordOut { conn, word })
}

/// `in CONN WORD VALUE`, after the verb.
fn word_in_of(conn: &[u8], word: &[u8], value: &[u8]) -> Option<Action>
    ensures { result ≡ word_in_of conn.now word.now value.now }
{
    let conn = name_of(conn)?;
    let word = unsigned_of(word)?;
    let value = signed_of(value)?;
    Some(Action::WordIn { conn, word, value })
}

/// `force CONN WORD MASK VALUE`, after the verb.
fn install_of(conn: &[u8], word: &[u8], mask: &[u8], value: &[u8]) -> Option<Action>
    ensures { result ≡ install_of conn.now word.now mask.now value.now }
{
    let conn = name_of(conn)?;
    let word = unsigned_of(word)?;
    let mask = signed_of(mask)?;
    let value = signed_of(value)?;
    Some(Action::ForceInstall {
        conn,
        word,
        mask,
        value,
    })
}

/// An action of one word.
fn bare_of(verb: &[u8]) -> Option<Action>
    ensures { result ≡ command_of (verb.now ∷ []) }
{
    if verb == b"clear".as_slice() {
        return Some(Action::Clear);
    }
    None
}

/// An action of three words.
fn out_of(verb: &[u8], conn: &[u8], word: &[u8]) -> Option<Action>
    ensures { result ≡ command_of (verb.now ∷ conn.now ∷ word.now ∷ []) }
{
    if verb == b"out".as_slice() {
        return word_out_of(conn, word);
    }
    None
}

/// An action of four words.
fn in_of(verb: &[u8], conn: &[u8], word: &[u8], value: &[u8]) -> Option<Action>
    ensures { result ≡ command_of (verb.now ∷ conn.now ∷ word.now ∷ value.now ∷ []) }
{
    if verb == b"in".as_slice() {
        return word_in_of(conn, word, value);
    }
    None
}

/// An action of five words.
fn force_of(verb: &[u8], conn: &[u8], word: &[u8], mask: &[u8], value: &[u8]) -> Option<Action>
    ensures { result ≡ command_of (verb.now ∷ conn.now ∷ word.now ∷ mask.now ∷ value.now ∷ []) }
{
    if verb == b"force".as_slice() {
        return install_of(conn, word, mask, value);
    }
    None
}

/// The action of the words of a text that begins with this verb and goes on so, if it is no accept.
#[tactic(auto, using(crate::proofs::WordSplits::words_next, crate::proofs::WordSplits::words_none))]
fn command_of(verb: &[u8], rest: &[u8]) -> Option<Action>
    ensures { (text : List ℕ) → verb.now ≡ first_word text → rest.now ≡ after_word text → result ≡ command_of (words text) }
{
    if verb.is_empty() {
        return None;
    }
    let Some((first, after)) = next_word(rest) else {
        return bare_of(verb);
    };
    let Some((second, after)) = next_word(after) else {
        return one_word_of(verb, first);
    };
    let Some((third, after)) = next_word(after) else {
        return out_of(verb, first, second);
    };
    let Some((fourth, after)) = next_word(after) else {
        return in_of(verb, first, second, third);
    };
    match next_word(after) {
        None => force_of(verb, first, second, third, fourth),
        Some(_) => None,
    }
}

/// The accept of edits, after its verb.
#[tactic(auto, using(crate::proofs::Parts::plain_after_word))]
fn accept_of(alloc: Global, rest: &[u8]) -> Result<Option<Action>, Memory>
    requires { IsTrue (is_plain rest.now) }
    ensures { IfOk result (λ o. o ≡ accept_of rest.now) }
{
    let (program, rest) = split_word(rest);
    let (routine, rest) = split_word(rest);
    let Some(program) = name_of(program) else {
        return Ok(None);
    };
    let Some(routine) = name_of(routine) else {
        return Ok(None);
    };
    let Some(edits) = edits_of(alloc, rest)? else {
        return Ok(None);
    };
    Ok(Some(Action::Accept(Accept {
        program,
        routine,
        edits,
    })))
}

/// The action that a text is.
#[tactic(auto, using(crate::proofs::Parts::plain_after_word))]
pub(crate) fn action_of(alloc: Global, text: &[u8]) -> Result<Option<Action>, Memory>
    requires { IsTrue (is_plain text.now) }
    ensures { IfOk result (λ o. o ≡ action_of text.now) }
{
    let (verb, rest) = split_word(text);
    if verb == b"accept".as_slice()
        && let Some(action) = accept_of(alloc, rest)?
    {
        return Ok(Some(action));
    }
    Ok(command_of(verb, rest))
}
