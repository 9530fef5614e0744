// The words of a text, by their places.
use crate::told::Told;
use lgx_num::{Kind, Name};

/// The word at a place of a text, counted from 0; none is empty.
pub fn word_at(text: &str, place: usize) -> &str {
    text.split_whitespace().nth(place).unwrap_or("")
}

/// The word there as a number that isn't negative; if it is none, that is said, and it counts as 0.
pub fn number_at(said: &mut Told, text: &str, place: usize) -> u32 {
    match word_at(text, place).parse::<u32>() {
        Ok(number) => number,
        Err(_) => {
            said.malformed();
            0
        }
    }
}

/// The word there as a signed number; if it is none, that is said, and it counts as 0.
pub fn value_at(said: &mut Told, text: &str, place: usize) -> i32 {
    match word_at(text, place).parse::<i32>() {
        Ok(value) => value,
        Err(_) => {
            said.malformed();
            0
        }
    }
}

/// The word there as a name.
pub fn name_at(text: &str, place: usize) -> Option<Name> {
    Name::read(word_at(text, place).as_bytes())
}

/// The word there as a kind; if it is none, that is said, and it counts as BOOL.
pub fn kind_at(said: &mut Told, text: &str, place: usize) -> Kind {
    match word_at(text, place) {
        "BOOL" => Kind::Bool,
        "SINT" => Kind::Sint,
        "INT" => Kind::Int,
        "DINT" => Kind::Dint,
        _ => {
            said.malformed();
            Kind::Bool
        }
    }
}
