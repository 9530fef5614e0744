// The words of a line.
ghost use Rattle.std.specs.Prelude.{◌≡◌, map, IfOk};
ghost use Rattle.spec_base.specs.Pieces.{pieces};
ghost use Rattle.std.specs.List.{list_all};
ghost use Rattle.lgx_chart.specs.Words.{is_printed, is_word, are_words};

use lgx_num::{Items, Memory, split_first};
use std::alloc::Global;

/// The words of a line, with one space between each two; two spaces in a row have an empty word between them.
pub(crate) fn words_of(alloc: Global, line: &[u8]) -> Result<Vec<&[u8]>, Memory>
    ensures { IfOk result (λ words. map (λ w. w.now) words.items ≡ pieces 32 line.now) }
{
    let mut words = Vec::new(alloc);
    let mut rest = line;
    while let Some((word, after)) = split_first(rest, b' ') {
        words.push(word)?;
        rest = after;
    }
    words.push(rest)?;
    Ok(words)
}

/// Whether a byte is printed and no space.
fn is_printed(byte: u8) -> bool
    ensures { result ≡ is_printed byte }
{
    33 <= byte && byte <= 126
}

/// Whether each byte is printed and no space.
fn are_printed(text: &[u8]) -> bool
    ensures { result ≡ list_all is_printed text.now }
{
    text.iter().all(|byte| is_printed(*byte))
}

/// Whether a text is bytes that are printed and no space, at least one.
#[tactic(auto, using(crate::proofs::WordLists::no_empty_word, crate::proofs::WordLists::some_word))]
pub(crate) fn is_word(text: &[u8]) -> bool
    ensures { result ≡ is_word text.now }
{
    !text.is_empty() && are_printed(text)
}

/// Whether each of these texts is a word.
pub(crate) fn are_words(texts: &[&[u8]]) -> bool
    ensures { result ≡ are_words (map (λ w. w.now) texts.now) }
{
    for text in texts {
        if !is_word(text) {
            return false;
        }
    }
    true
}

/// A text of its own.
pub fn owned(alloc: Global, text: &[u8]) -> Result<Items<u8>, Memory>
    ensures { IfOk result (λ copy. copy ≡ text.now) }
{
    Ok(Items::of(text.to_vec(alloc)?))
}

/// Texts of their own.
pub(crate) fn all_owned(alloc: Global, texts: &[&[u8]]) -> Result<Items<Items<u8>>, Memory>
    ensures { IfOk result (λ copies. copies ≡ map (λ w. w.now) texts.now) }
{
    let mut copies = Vec::new(alloc);
    for text in texts {
        copies.push(owned(alloc, text)?)?;
    }
    Ok(Items::of(copies))
}
