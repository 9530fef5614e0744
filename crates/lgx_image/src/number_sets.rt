//! Sets of numbers as bits of words: bit i of word k is that of number 64k + i.
ghost use Rattle.std.specs.Prelude.{◌≡◌, ◌≢◌, ℕ, ◌/◌, ◌<◌, ◌≤◌, true, length};
ghost use Rattle.lgx_image.specs.Words.{bit_of_words, Cleared, NextBit, LeastBit};

/// The words of the largest set.
pub const WORDS: usize = 1024;

/// Whether a bit of words is set.
#[inline(always)]
pub(crate) fn has_bit(words: &[u64], bit: u32) -> bool
    requires { bit / 64 < length words.now }
    ensures { result ≡ bit_of_words words.now bit }
{
    (words[(bit / u64::BITS) as usize] >> (bit % u64::BITS)) & 1 == 1
}

/// Sets a bit of words.
#[inline(always)]
pub(crate) fn set_bit(words: &mut [u64], bit: u32)
    requires { bit / 64 < length words.old }
    ensures set { bit_of_words words.new bit ≡ true }
    ensures others { (other : ℕ) → other ≢ bit → bit_of_words words.new other ≡ bit_of_words words.old other }
    ensures len { length words.new ≡ length words.old }
{
    words[(bit / u64::BITS) as usize] |= 1 << (bit % u64::BITS);
}

/// Clears words from one up to another; the words before have no bit.
pub(crate) fn clear_words(words: &mut [u64], from: u32, end: u32)
    requires order { from ≤ end }
    requires room { end ≤ length words.old }
    requires before { Cleared words.old words.old from }
    ensures { Cleared words.old words.new end }
{
    if end - from == 1 {
        words[from as usize] = 0;
        return;
    }
    for word in from..end {
        words[word as usize] = 0;
    }
}

/// The least bit of the words that is set and not below `from`; None if there is none. Bit i of word k is number 64 k + i.
pub fn next_bit(words: &[u64], from: u32) -> Option<u32>
    requires { length words.now ≤ WORDS }
    ensures { NextBit words.now from result }
{
    let first = (from / u64::BITS) as usize;
    if first >= words.len() {
        return None;
    }
    if let Some(bit) = least_bit(words[first] >> (from % u64::BITS)) {
        return Some(from + bit);
    }
    for at in first + 1..words.len() {
        if let Some(bit) = least_bit(words[at]) {
            return Some(at as u32 * u64::BITS + bit);
        }
    }
    None
}

/// The least bit of a word that is set.
fn least_bit(word: u64) -> Option<u32>
    ensures { LeastBit word result }
{
    if word == 0 {
        None
    } else {
        Some(word.trailing_zeros())
    }
}
