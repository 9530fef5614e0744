// Numbers, names and operands.
use crate::trouble::Trouble;
use lgx_num::{Items, Memory, Name, bytes_of, dint_of, fits, same, store_low};
use std::alloc::Global;
use test_rows::{Told, kind_at, name_at, value_at, word_at};

/// `name | TEXT | ..`: the name that it is, or `no`.
pub fn say_name(said: &mut Told, text: &str) {
    match Name::read(text.as_bytes()) {
        Some(name) => said.bytes(name.copied().bytes()),
        None => said.word("no"),
    }
}

/// `same | NAME NAME | ..`: whether the names are one, and whether their texts are.
pub fn say_same(said: &mut Told, text: &str) {
    match (name_at(text, 0), name_at(text, 1)) {
        (Some(left), Some(right)) => {
            said.truth(left.same(&right));
            said.truth(same(left.bytes(), right.bytes()));
        }
        _ => said.malformed(),
    }
}

/// `keep | KIND VALUE | ..`: what is kept of the value, and whether it fits.
pub fn say_kept(said: &mut Told, text: &str) {
    let kind = kind_at(said, text, 0);
    match word_at(text, 1).parse::<i64>() {
        Ok(value) => {
            said.number(i64::from(store_low(kind, value)));
            said.truth(fits(kind, value));
        }
        Err(_) => said.malformed(),
    }
}

/// `bytes | VALUE | ..`: the bytes of the value, and the number of these.
pub fn say_bytes(said: &mut Told, text: &str) {
    let bytes = bytes_of(value_at(said, text, 0));
    for byte in bytes {
        said.number(i64::from(byte));
    }
    said.number(i64::from(dint_of(bytes)));
}

/// `items | VALUE .. | ..`: whether there is none, how many there are, these, and the last.
pub fn say_items(alloc: Global, said: &mut Told, text: &str) -> Result<(), Trouble> {
    let items = Items::of(values_of(alloc, said, text)?);
    say_each(said, &items);
    if let Some(last) = items.into_vec().pop() {
        said.number(i64::from(last));
    }
    Ok(())
}

fn values_of(alloc: Global, said: &mut Told, text: &str) -> Result<Vec<i32>, Memory> {
    let mut values = Vec::new(alloc);
    for value in text.split_whitespace() {
        values.push(value_at(said, value, 0))?;
    }
    Ok(values)
}

fn say_each(said: &mut Told, items: &Items<i32>) {
    said.truth(items.is_empty());
    said.count(items.len());
    for item in items.as_slice() {
        said.number(i64::from(*item));
    }
}
