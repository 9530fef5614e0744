// Parts of a text.

/// What is before the first of these separators, and what after it: nothing, where there is none.
pub(crate) fn cut<'a>(text: &'a str, separator: &str) -> (&'a str, &'a str) {
    text.split_once(separator).unwrap_or((text, ""))
}

/// A number; 0 where it can't be read.
pub(crate) fn unsigned_of(digits: &str) -> u32 {
    digits.parse::<u32>().unwrap_or(0)
}

/// A larger number; 0 where it can't be read.
pub(crate) fn number_of(digits: &str) -> u64 {
    digits.parse::<u64>().unwrap_or(0)
}

/// The word of this number, from 0 on; nothing where there are fewer.
pub(crate) fn word_at(words: &str, number: usize) -> &str {
    words.split_whitespace().nth(number).unwrap_or("")
}

/// Whether a text begins with the first of these pieces, with ` .. ` between them, ends with the last, and has the others between
/// these, in their order.
pub(crate) fn has_pieces(text: &str, pieces: &str) -> bool {
    let mut left = text.len();
    for piece in pieces.split(" .. ") {
        let rest = text.get(text.len().saturating_sub(left)..).unwrap_or("");
        let Some(after) = after_piece(rest, piece, left == text.len()) else {
            return false;
        };
        left = after.len();
    }
    left == 0
}

/// What is after a piece; none if a text hasn't got it, or not at its beginning where it is to be the first.
fn after_piece<'a>(text: &'a str, piece: &str, is_first: bool) -> Option<&'a str> {
    let (before, after) = text.split_once(piece)?;
    (before.is_empty() || !is_first).then_some(after)
}
