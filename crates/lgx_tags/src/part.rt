// The parts of an operand's text.
ghost use Rattle.std.specs.Prelude.{◌≡◌, ◌<◌, ◌++◌, ◌∷◌, Some, None, IsTrue, IsNone, IfSome, length};
ghost use Rattle.std.specs.Char.{is_digit};
ghost use Rattle.std.specs.List.{list_all};
ghost use Rattle.spec_language.specs.OperandForm.{tokens, are_digits, dot, opening};
ghost use Rattle.lgx_tags.specs.Parts.{part_of, ElementIsDigits, first_part, is_mark, begins_marked, with_word};

use crate::near::Hash;

/// A part of an operand after its tag's name.
#[derive(Clone, Copy)]
pub(crate) enum OperandPart<'a> {
    /// A dot and a word.
    Dotted(&'a [u8]),
    /// Digits in brackets.
    Element(&'a [u8]),
    /// A bracket and the word after it, which begins an operand.
    Opened(&'a [u8]),
    /// The bracket that closes the innermost one.
    Closed,
}

/// Whether the byte is a decimal digit.
#[tactic(auto, using(crate::proofs::OperandParts::digit_test))]
fn is_digit(byte: u8) -> bool
    ensures { result ≡ is_digit byte 10 }
{
    byte.is_ascii_digit()
}

/// Whether no byte of a word is anything but a digit.
fn all_digits(word: &[u8]) -> bool
    ensures { result ≡ list_all (λ c. is_digit c 10) word.now }
{
    word.iter().all(|byte| is_digit(*byte))
}

/// Whether a word is decimal digits.
#[tactic(auto, using(crate::proofs::OperandParts::some_digits))]
pub(crate) fn are_digits(word: &[u8]) -> bool
    ensures { result ≡ are_digits 10 word.now }
{
    !word.is_empty() && all_digits(word)
}

/// What a byte between words has in the table.
const MARK: u8 = 1;

/// For each byte a digit, whose lowest bit is the kind above.
static KINDS: [u8; 256] = *b"\
    00000000000000000000000000000000\
    00000000000000100000000000000000\
    00000000000000000000000000010100\
    00000000000000000000000000000000\
    00000000000000000000000000000000\
    00000000000000000000000000000000\
    00000000000000000000000000000000\
    00000000000000000000000000000000";

/// Whether the byte comes between words.
#[inline(always)]
fn is_mark(byte: u8) -> bool
    ensures { result ≡ is_mark byte }
{
    KINDS[byte as usize] & MARK != 0
}

/// The word with which a text begins, and what comes after it. The word may be empty.
#[tactic(auto, using(crate::proofs::OperandParts::whole_at, crate::proofs::OperandParts::ended_at, crate::proofs::OperandParts::tokens_at, crate::proofs::OperandParts::tokens_whole))]
pub(crate) fn split_word(text: &[u8]) -> (&[u8], &[u8])
    ensures whole { text.now ≡ result.0.now ++ result.1.now }
    ensures tokens { tokens text.now ≡ with_word result.0.now (tokens result.1.now) }
    ensures ended { IsTrue (begins_marked result.1.now) }
{
    for (i, byte) in text.iter().enumerate() {
        if is_mark(*byte) {
            return (&text[..i], &text[i..]);
        }
    }
    (text, &[])
}

/// The same, and the hash of the word.
#[tactic(auto, using(crate::proofs::OperandParts::whole_at, crate::proofs::OperandParts::ended_at, crate::proofs::OperandParts::tokens_at, crate::proofs::OperandParts::tokens_whole))]
#[inline(always)]
pub(crate) fn split_hashed(text: &[u8]) -> (&[u8], &[u8], Hash)
    ensures whole { text.now ≡ result.0.now ++ result.1.now }
    ensures tokens { tokens text.now ≡ with_word result.0.now (tokens result.1.now) }
    ensures ended { IsTrue (begins_marked result.1.now) }
{
    let mut hash = Hash::new();
    for (i, byte) in text.iter().enumerate() {
        if is_mark(*byte) {
            return (&text[..i], &text[i..], hash);
        }
        hash = hash.with(*byte);
    }
    (text, &[], hash)
}

/// The part with which a text begins, and what comes after it, or none if it begins with no part.
pub(crate) fn first_part(text: &[u8]) -> Option<(OperandPart<'_>, &[u8])>
    ensures part { IfSome result (λ r. first_part (tokens text.now) ≡ Some (part_of r.0, tokens r.1.now)) }
    ensures none { IsNone result → first_part (tokens text.now) ≡ None }
    ensures shorter { IfSome result (λ r. length r.1.now < length text.now) }
    ensures fit { IfSome result (λ r. ElementIsDigits (part_of r.0)) }
{
    match text {
        [b'.', after @ ..] => dotted(after),
        [b'[', after @ ..] => bracketed(after),
        [b']', after @ ..] => Some((OperandPart::Closed, after)),
        _ => None,
    }
}

/// What a dot before a text begins.
fn dotted(text: &[u8]) -> Option<(OperandPart<'_>, &[u8])>
    ensures part { IfSome result (λ r. first_part (dot ∷ tokens text.now) ≡ Some (part_of r.0, tokens r.1.now)) }
    ensures none { IsNone result → first_part (dot ∷ tokens text.now) ≡ None }
    ensures shorter { IfSome result (λ r. length r.1.now < length text.now) }
    ensures fit { IfSome result (λ r. ElementIsDigits (part_of r.0)) }
{
    let (word, after) = split_word(text);
    if word.is_empty() {
        return None;
    }
    Some((OperandPart::Dotted(word), after))
}

/// What an opening bracket before a text begins.
fn bracketed(text: &[u8]) -> Option<(OperandPart<'_>, &[u8])>
    ensures part { IfSome result (λ r. first_part (opening ∷ tokens text.now) ≡ Some (part_of r.0, tokens r.1.now)) }
    ensures none { IsNone result → first_part (opening ∷ tokens text.now) ≡ None }
    ensures shorter { IfSome result (λ r. length r.1.now < length text.now) }
    ensures fit { IfSome result (λ r. ElementIsDigits (part_of r.0)) }
{
    let (word, after) = split_word(text);
    if word.is_empty() {
        return None;
    }
    if !are_digits(word) {
        return Some((OperandPart::Opened(word), after));
    }
    match after {
        [b']', rest @ ..] => Some((OperandPart::Element(word), rest)),
        _ => None,
    }
}
