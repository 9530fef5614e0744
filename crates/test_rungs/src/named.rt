// Rows of tags and aliases.
ghost use Rattle.std.specs.Prelude.{◌≡◌, true};

use crate::declared::{Declared, declare_text, scoped};
use crate::errors::Refusal;
use lgx_tags::{Found, SealError, TagError, TagSpan, TagTable};
use std::alloc::Global;
use test_rows::{Told, number_at, word_at};

/// `tags | TYPES ? PROGRAMS; DECLARATION; .. ? CALL; .. | ..`: which declarations are refused, and for what; the
/// answer of sealing, if it is refused; and else what the calls answer.
///
/// The types are as in a row of `types`. A declaration is `NAME TYPE`, `NAME TYPE LENGTH` or `NAME = TARGET`, and a
/// name `a@0` is one of the program 0. `at TEXT` and `fixed TEXT` answer the bit that a text names, `bytes` the
/// length of the image, `count` the number of tags, and `tag NUMBER` a tag's name, scope and bytes.
pub fn say_tags(alloc: Global, said: &mut Told, types: &str, rest: &str) -> Result<(), Refusal> {
    let (declarations, calls) = rest.split_once('?').ok_or(Refusal::Form)?;
    let (programs, texts) = declarations.split_once(';').ok_or(Refusal::Form)?;
    let programs = number_at(said, programs, 0);
    let mut declared = Declared::new(alloc, types, programs)?;
    declare_all(said, &mut declared, texts)?;
    say_sealed(alloc, said, declared, calls);
    Ok(())
}

fn declare_all(said: &mut Told, declared: &mut Declared, texts: &str) -> Result<(), Refusal> {
    for text in texts.split(';') {
        match declare_text(declared, text)? {
            Ok(()) => {}
            Err(TagError::Tag(code)) => said.shown(&code),
            Err(TagError::Memory) => return Err(Refusal::Memory),
        }
    }
    said.number(i64::from(declared.bytes()));
    Ok(())
}

fn say_sealed(alloc: Global, said: &mut Told, declared: Declared, calls: &str) {
    match declared.seal() {
        Ok(sealed) => {
            for call in calls.split(';') {
                run(alloc, said, &sealed.table, call);
            }
        }
        Err(SealError::Alias { code, alias }) => {
            said.shown(&code);
            said.number(i64::from(alias));
        }
        Err(SealError::Memory) => said.word("Memory"),
    }
}

fn run(alloc: Global, said: &mut Told, table: &TagTable, call: &str)
    requires { table.now.sealed ≡ true }
{
    match word_at(call, 0) {
        "at" => say_at(alloc, said, table, call),
        "fixed" => say_fixed(alloc, said, table, call),
        "bytes" => said.number(i64::from(table.bytes())),
        "count" => said.number(i64::from(table.tag_count())),
        "tag" => {
            let number = number_at(said, call, 1);
            say_tag(said, table, number);
        }
        _ => said.malformed(),
    }
}

fn say_at(alloc: Global, said: &mut Told, table: &TagTable, call: &str)
    requires { table.now.sealed ≡ true }
{
    match scoped(word_at(call, 1)) {
        Ok((text, scope)) => say_bit(said, table.resolve(alloc, scope, text.as_bytes())),
        Err(_) => said.malformed(),
    }
}

fn say_fixed(alloc: Global, said: &mut Told, table: &TagTable, call: &str)
    requires { table.now.sealed ≡ true }
{
    match scoped(word_at(call, 1)) {
        Ok((text, scope)) => say_bit(said, table.resolve_fixed(alloc, scope, text.as_bytes())),
        Err(_) => said.malformed(),
    }
}

fn say_bit(said: &mut Told, found: Result<Found, TagError>) {
    match found {
        Ok(found) => {
            let at = found.at;
            said.number(i64::from(at));
        }
        Err(TagError::Tag(code)) => said.shown(&code),
        Err(TagError::Memory) => said.word("Memory"),
    }
}

fn say_tag(said: &mut Told, table: &TagTable, number: u32)
    requires { table.now.sealed ≡ true }
{
    match table.tag_at(number) {
        Some(span) => {
            if number < table.tag_count() {
                said.bytes(table.tag_name(number));
            }
            say_span(said, span);
        }
        None => said.word("none"),
    }
}

fn say_span(said: &mut Told, span: TagSpan) {
    said.shown(&span.scope);
    said.number(i64::from(span.start));
    said.number(i64::from(span.end));
}
