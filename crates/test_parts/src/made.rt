// Generated texts.
use crate::trouble::Trouble;
use lgx_gen::{gen_journal, gen_project};
use std::alloc::Global;
use test_rows::{Told, number_at, word_at};

/// `project | N WHAT .. | ..`: of the project that is made from the number N, `length`: how many bytes there are;
/// `adler`: their Adler-32 (RFC 1950) in decimal; `line NUMBER`: that line, from 0 on, or `none`; `rung PROGRAM
/// RUNG`: that rung of that program.
pub fn say_project(alloc: Global, said: &mut Told, given: &str) -> Result<(), Trouble> {
    let number = number_at(said, given, 0);
    let text = gen_project(alloc, number)?;
    say_asked(said, &text, given);
    Ok(())
}

/// `events | N WHAT .. | ..`: the same of the journal that is made from it.
pub fn say_events(alloc: Global, said: &mut Told, given: &str) -> Result<(), Trouble> {
    let number = number_at(said, given, 0);
    let text = gen_journal(alloc, number)?;
    say_asked(said, &text, given);
    Ok(())
}

/// Says what is asked of a text.
fn say_asked(said: &mut Told, text: &[u8], given: &str) {
    match word_at(given, 1) {
        "length" => said.count(text.len()),
        "adler" => said.number(i64::from(adler(text))),
        "line" => {
            let number = number_at(said, given, 2);
            say_line(said, line_at(text, number));
        }
        "rung" => {
            let program = number_at(said, given, 2);
            let rung = number_at(said, given, 3);
            let at = program.saturating_mul(32).saturating_add(rung);
            say_line(said, rung_at(text, at));
        }
        _ => said.malformed(),
    }
}

fn say_line(said: &mut Told, line: Option<&[u8]>) {
    match line {
        Some(line) => said.bytes(line.trim_ascii()),
        None => said.word("none"),
    }
}

/// The line of a number, without its line feed.
fn line_at(text: &[u8], number: u32) -> Option<&[u8]> {
    let mut at = 0u32;
    for line in text.split(|byte| *byte == b'\n') {
        if at == number {
            return (!line.is_empty()).then_some(line);
        }
        at = at.saturating_add(1);
    }
    None
}

/// The rung of a number: what is between quotes in the line of that number among those that begin with four
/// spaces.
fn rung_at(text: &[u8], number: u32) -> Option<&[u8]> {
    let mut at = 0u32;
    for line in text.split(|byte| *byte == b'\n') {
        if let Some(rung) = line.strip_prefix(b"    \"".as_slice()) {
            if at == number {
                return rung.split(|byte| *byte == b'"').next();
            }
            at = at.saturating_add(1);
        }
    }
    None
}

/// The Adler-32 of a text.
fn adler(text: &[u8]) -> u32 {
    let mut sum = 1u32;
    let mut sums = 0u32;
    for byte in text {
        sum = (sum % 65521 + u32::from(*byte)) % 65521;
        sums = (sums % 65521 + sum) % 65521;
    }
    sums % 65521 * 65536 + sum % 65521
}
