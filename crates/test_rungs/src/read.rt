// The words of a row.
use crate::errors::Refusal;
use lgx_num::Name;
use std::str::SplitWhitespace;

/// The next word.
pub fn word<'a>(words: &mut SplitWhitespace<'a>) -> Result<&'a str, Refusal> {
    words.next().ok_or(Refusal::Form)
}

/// The next word as a number that isn't negative; 0 if there is none.
pub fn number_or_0(words: &mut SplitWhitespace<'_>) -> Result<u32, Refusal> {
    match words.next() {
        Some(word) => word.parse::<u32>().ok().ok_or(Refusal::Form),
        None => Ok(0),
    }
}

/// The next word as a name.
pub fn name(words: &mut SplitWhitespace<'_>) -> Result<Name, Refusal> {
    Name::read(word(words)?.as_bytes()).ok_or(Refusal::Form)
}

/// The name that a text is.
pub fn name_of(text: &str) -> Result<Name, Refusal> {
    Name::read(text.as_bytes()).ok_or(Refusal::Form)
}
