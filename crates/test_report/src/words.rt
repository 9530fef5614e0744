// Words of a row.

/// The word of this number, from 0 on; nothing where there are fewer.
pub(crate) fn word_at(words: &str, number: usize) -> &str {
    words.split_whitespace().nth(number).unwrap_or("")
}

/// The number that the word of this number is; 0 where it is none.
pub(crate) fn number_at(words: &str, number: usize) -> u32 {
    word_at(words, number).parse::<u32>().unwrap_or(0)
}

/// The same of a number with a sign.
pub(crate) fn value_at(words: &str, number: usize) -> i32 {
    word_at(words, number).parse::<i32>().unwrap_or(0)
}
