// Lines, words and parts of a text, and numbers.
ghost use Rattle.std.specs.Prelude.{◌≡◌, ◌++◌, true, false, ◌<◌, ◌≤◌, ◌^◌, [], ◌∷◌, length, not, if◌then◌else◌, Some, None, IsNone, IfSome};
ghost use Rattle.std.specs.List.{prefix_len};
ghost use Rattle.spec_base.specs.Pieces.{pieces, has_byte};
ghost use Rattle.spec_text.specs.TextLines.{is_space, words, first_word, after_word, value_of, is_digits, unsigned_of, signed_of, as_i32, value_when};

/// The number of spaces before the first byte that is none.
#[tactic(auto, using(crate::proofs::Prefixes::prefix_stops, crate::proofs::Prefixes::prefix_whole))]
fn spaces_before(text: &[u8]) -> usize
    ensures value { result ≡ prefix_len is_space text.now }
    ensures bound { result ≤ length text.now }
{
    for (i, byte) in text.iter().enumerate() {
        if *byte != b' ' {
            return i;
        }
    }
    text.len()
}

/// The bytes before the first space.
#[tactic(auto, using(crate::proofs::Prefixes::prefix_stops, crate::proofs::Prefixes::prefix_whole))]
fn word_len(text: &[u8]) -> usize
    ensures value { result ≡ prefix_len (λ c. not (is_space c)) text.now }
    ensures bound { result ≤ length text.now }
{
    for (i, byte) in text.iter().enumerate() {
        if *byte == b' ' {
            return i;
        }
    }
    text.len()
}

/// The first word, which is empty if there is none, and what comes after it.
pub fn split_word(text: &[u8]) -> (&[u8], &[u8])
    ensures word { result.0.now ≡ first_word text.now }
    ensures after { result.1.now ≡ after_word text.now }
{
    let (_, from) = text.split_at(spaces_before(text));
    from.split_at(word_len(from))
}

/// The first word and what comes after it, if there is a word.
#[tactic(auto, using(crate::proofs::WordSplits::words_next, crate::proofs::WordSplits::words_none))]
pub fn next_word(text: &[u8]) -> Option<(&[u8], &[u8])>
    ensures some { IfSome result (λ r. words text.now ≡ r.0.now ∷ words r.1.now) }
    ensures none { IsNone result → words text.now ≡ [] }
{
    let (word, after) = split_word(text);
    if word.is_empty() {
        return None;
    }
    Some((word, after))
}

/// The number that 1 to 10 digits are.
#[tactic(auto, using(crate::proofs::Digits::pow_small))]
fn digits_of(digits: &[u8]) -> Option<u64>
    ensures value { result ≡ (if is_digits digits.now then Some (value_of digits.now) else None) }
    ensures small { IfSome result (λ n. n < 10 ^ 10) }
{
    if digits.is_empty() || digits.len() > 10 {
        return None;
    }
    let mut number = 0u64;
    for digit in digits {
        if !digit.is_ascii_digit() {
            return None;
        }
        number = number * 10 + u64::from(*digit - b'0');
    }
    Some(number)
}

/// The number that 1 to 10 digits are, if it fits a `u32`.
pub fn unsigned_of(digits: &[u8]) -> Option<u32>
    ensures { result ≡ unsigned_of digits.now }
{
    let number = digits_of(digits)?;
    if number > u64::from(u32::MAX) {
        return None;
    }
    Some(number as u32)
}

/// A value or mask.
fn as_i32(value: i64) -> Option<i32>
    ensures { result ≡ as_i32 value }
{
    if i64::from(i32::MIN) <= value && value <= i64::from(i32::MAX) {
        Some(value as i32)
    } else {
        None
    }
}

/// The number that 1 to 10 digits are, if it fits a DINT.
fn positive_of(digits: &[u8]) -> Option<i32>
    ensures { result ≡ value_when false digits.now }
{
    let number = digits_of(digits)?;
    as_i32(number as i64)
}

/// The number that 1 to 10 digits are with a `-` before them, if it fits a DINT.
fn negative_of(digits: &[u8]) -> Option<i32>
    ensures { result ≡ value_when true digits.now }
{
    let number = digits_of(digits)?;
    as_i32(-(number as i64))
}

/// The number that 1 to 10 digits are, with `-` before them if it is negative, if it fits a DINT.
pub fn signed_of(text: &[u8]) -> Option<i32>
    ensures { result ≡ signed_of text.now }
{
    match text {
        [] => None,
        [b'-', digits @ ..] => negative_of(digits),
        _ => positive_of(text),
    }
}
