// Rows of a project's file.
use crate::calls::{Request, call_on_two};
use crate::fields::{cut, unsigned_of};
use crate::gates::Hold;
use crate::program::Program;
use lgx_answer::Status;
use std::alloc::{AllocError, Global};
use std::sync::Wait;
use std::thread::Threads;
use test_rows::{Texts, Told};

/// The fields of the small project.
const FIELDS: [(&str, &str); 9] = [
    ("schema", "1"),
    ("controller", "\"C\""),
    ("types", "[]"),
    ("tags", "[]"),
    (
        "programs",
        "[{\"name\":\"P\",\"main\":\"M\",\"routines\":[{\"name\":\"M\",\"rungs\":[]}]}]",
    ),
    (
        "tasks",
        "[{\"name\":\"T\",\"kind\":\"continuous\",\"programs\":[\"P\"]}]",
    ),
    ("connections", "[]"),
    ("initial", "[]"),
    ("watch", "[]"),
];

/// What a row of a project says: the text of its file, and the text with each `{{N*TEXT}}` in it written out.
#[derive(Drop)]
struct File {
    expanded: String,
    text: String,
}

impl File {
    fn new(alloc: Global) -> File {
        File {
            expanded: String::new(alloc),
            text: String::new(alloc),
        }
    }

    /// Writes the file of `KEYS = VALUES`: the small project in which the field of each key has its value, or is left out if the
    /// value is `-`; between values is ` ~ `. With the key `file` the value is the whole text. VALUES may be
    /// the name of a text.
    fn write(&mut self, texts: &Texts, given: &str) -> Result<(), AllocError> {
        let (keys, values) = cut(given, "=");
        let (keys, values) = (keys.trim(), values.trim());
        let values = match texts.get(values) {
            Some(text) => std::str::from_utf8(text).unwrap_or(""),
            None => values,
        };
        expand(&mut self.expanded, values)?;
        let values = self.expanded.as_str();
        if keys == "file" {
            return self.text.push_str(values);
        }
        self.text.push('{')?;
        put_fields(&mut self.text, keys, values)?;
        put_others(&mut self.text, keys, values)?;
        self.text.push('}')
    }
}

/// Adds a text with each `{{N*TEXT}}` written out.
fn expand(made: &mut String, text: &str) -> Result<(), AllocError> {
    let mut rest = text;
    for _ in 0..text.len() {
        if rest.is_empty() {
            break;
        }
        let (before, after) = cut(rest, "{{");
        made.push_str(before)?;
        let (inside, after) = cut(after, "}}");
        let (count, piece) = cut(inside, "*");
        for _ in 0..unsigned_of(count) {
            made.push_str(piece)?;
        }
        rest = after;
    }
    Ok(())
}

/// Adds the fields of the small project.
fn put_fields(text: &mut String, keys: &str, values: &str) -> Result<(), AllocError> {
    for (name, usual) in &FIELDS {
        put(text, name, value_of(keys, values, name).unwrap_or(usual))?;
    }
    Ok(())
}

/// Adds the fields that the small project hasn't.
fn put_others(text: &mut String, keys: &str, values: &str) -> Result<(), AllocError> {
    for (key, value) in keys.split(' ').zip(values.split(" ~ ")) {
        if !is_field(key) {
            put(text, key, value)?;
        }
    }
    Ok(())
}

/// The value that a row gives to a field, if it gives one.
fn value_of<'a>(keys: &str, values: &'a str, name: &str) -> Option<&'a str> {
    for (key, value) in keys.split(' ').zip(values.split(" ~ ")) {
        if key == name {
            return Some(value);
        }
    }
    None
}

/// Whether the small project has a field of this key.
fn is_field(key: &str) -> bool {
    for (name, _) in &FIELDS {
        if *name == key {
            return true;
        }
    }
    false
}

/// Adds a field, unless its value is `-`.
fn put(text: &mut String, key: &str, value: &str) -> Result<(), AllocError> {
    if value == "-" {
        return Ok(());
    }
    if text.len() > 1 {
        text.push(',')?;
    }
    text.push('"')?;
    text.push_str(key)?;
    text.push_str("\":")?;
    text.push_str(value)
}

/// Says what `check` answers of the file of `KEYS = VALUES`.
pub(crate) fn say_check<P: Program, R: Threads + Wait + Sync>(
    rt: &R,
    program: &P,
    texts: &Texts,
    given: &str,
    told: &mut Told,
) {
    let mut file = File::new(texts.alloc);
    if file.write(texts, given).is_err() {
        told.lack();
    }
    say_answer(
        rt,
        program,
        texts.alloc,
        "check P",
        file.text.as_bytes(),
        told,
    );
}

/// Says what `check` answers of each shorter beginning of a text, if it is always what is wanted, and else the first other answer.
pub(crate) fn say_cuts<P: Program, R: Threads + Wait + Sync>(
    rt: &R,
    program: &P,
    alloc: Global,
    text: &str,
    wanted: &str,
    told: &mut Told,
) {
    for end in 0..text.len() {
        told.clear();
        let front = text.as_bytes().get(..end).unwrap_or(b"");
        say_answer(rt, program, alloc, "check P", front, told);
        if !told.is(wanted) {
            return;
        }
    }
}

/// Says what a call with a project's file answers: the line that it writes, without the word `project` before a refusal; the name
/// of the status, if it is another one than these give.
pub(crate) fn say_answer<P: Program, R: Threads + Wait + Sync>(
    rt: &R,
    program: &P,
    alloc: Global,
    words: &str,
    file: &[u8],
    told: &mut Told,
) {
    let request = Request {
        words,
        first: file,
        second: b"",
        failing: 0,
    };
    let (status, sink) = call_on_two(rt, program, alloc, &request, &Hold::Nobody);
    say_line(status, std::str::from_utf8(sink.held()).unwrap_or(""), told);
}

fn say_line(status: Status, text: &str, told: &mut Told) {
    let (line, rest) = cut(text, "\n");
    if !rest.is_empty() || !text.ends_with('\n') {
        told.word("no line");
    }
    let (before, refusal) = cut(line, "project ");
    match status {
        Status::Ok => told.word(line),
        Status::Project if before.is_empty() => told.word(refusal),
        _ => told.shown(&status),
    }
}
