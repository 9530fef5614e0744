//! Judges the rows of a table of reports and their pictures on standard input.
//!
//! A row is `KIND | REPORT | STATUS / TEXT`: how the program ends, and what it writes. After KIND, further words of the call may
//! come. A report, and what is written, may be the name of a text. What differs is printed, and at the end how many rows there
//! were.
//!
//! | kind | the call | TEXT |
//! |---|---|---|
//! | `wave`, `tick`, `more-words` | `logix_wave` with no word, the word `tick`, two words | all that is written |
//! | `changes`, `ticks` | the same with no word, the word `tick` | what is after the definitions |
//! | `failing` | the same; the sink fails at its first put, and keeps ten bytes of it | |
//! | `drawing`, `drawing-more-words` | `logix_timeline` with no word, two words | all that is written |
//! | `drawn`, `drawn-tick` | the same with no word, the word `tick` | what is after the legend |
//! | `drawing-failing` | the same; the sink fails as above | |
//! | `long` | `logix_timeline` on a report of this number of lines, each a reply | how many strokes there are |
//! | `long-begins` | the same, each a begin of one task | what the first bar shows first |
#![tactic(auto)]

mod long;

use lgx_chart::{Status, wave};
use lgx_io::{Input, MemSink};
use lgx_picture::draw_timeline;
use long::{say_bar, say_strokes};
use std::alloc::{AllocError, Global};
use std::io::{self, Cursor};
use test_rows::{Row, Texts, Told, judge_table, push_plain};

/// What is before the changes of a wave file.
const DEFINED: &str = "$enddefinitions $end\n";

/// What the legend of a drawing ends with.
const EXPLAINED: &str = "pointing at it shows all</text>\n";

fn main(rt: HostRuntime) -> io::Result<()> {
    judge_table(&rt, say)
}

/// Says what comes out of a row.
fn say(texts: &Texts, row: &Row<'_>, told: &mut Told) {
    match row.kind {
        "long" => say_strokes(texts.alloc, row.given, told),
        "long-begins" => say_bar(texts.alloc, row.given, told),
        _ => say_call(texts, row, told),
    }
}

/// The first word of a row, which names the call.
fn kind_of<'a>(row: &Row<'a>) -> &'a str {
    match row.kind.split_once(' ') {
        Some((kind, _)) => kind,
        None => row.kind,
    }
}

/// Says `STATUS / TEXT` of a call.
fn say_call(texts: &Texts, row: &Row<'_>, told: &mut Told) {
    let mut report = Vec::new(texts.alloc);
    let mut words = Vec::new(texts.alloc);
    let mut puts = Vec::new(texts.alloc);
    let kind = kind_of(row);
    let is_whole = push_report(&mut report, texts, row.given).is_ok()
        && push_words(texts.alloc, &mut words, kind).is_ok()
        && push_more_words(texts.alloc, &mut words, row.kind).is_ok()
        && push_failing(&mut puts, kind).is_ok();
    if !is_whole {
        told.lack();
    }
    let mut sink = MemSink::new(texts.alloc, puts);
    let status = ended(texts.alloc, kind, &words, report, &mut sink);
    told.number(i64::from(status.number()));
    say_text(texts, row, sink.held(), told);
}

/// Adds the bytes of a report.
fn push_report(report: &mut Vec<u8>, texts: &Texts, given: &str) -> Result<(), AllocError> {
    match texts.get(given) {
        Some(text) => report.extend_from_slice(text),
        None => push_plain(report, given),
    }
}

/// Adds the words of a call.
fn push_words(alloc: Global, words: &mut Vec<String>, kind: &str) -> Result<(), AllocError> {
    let count = match kind {
        "tick" | "ticks" | "drawn-tick" => 1,
        "more-words" | "drawing-more-words" => 2,
        _ => 0,
    };
    for _ in 0..count {
        words.push(String::new(alloc))?;
    }
    for word in words {
        word.push_str("tick")?;
    }
    Ok(())
}

/// Adds the words after the first.
fn push_more_words(alloc: Global, words: &mut Vec<String>, kind: &str) -> Result<(), AllocError> {
    for word in kind.split(' ').skip(1) {
        words.push(String::from_str(alloc, word)?)?;
    }
    Ok(())
}

/// Adds the put that fails, if one does, and how many bytes it keeps.
fn push_failing(puts: &mut Vec<(u32, u32)>, kind: &str) -> Result<(), AllocError> {
    if kind.ends_with("failing") {
        puts.push((1, 10))?;
    }
    Ok(())
}

/// Whether a kind names `logix_timeline`.
fn is_drawing(kind: &str) -> bool {
    kind.starts_with("draw")
}

/// How the program ends that a kind names.
fn ended(
    alloc: Global,
    kind: &str,
    words: &[String],
    report: Vec<u8>,
    sink: &mut MemSink,
) -> Status {
    let mut files = Input::new(Cursor::new(report), alloc);
    if is_drawing(kind) {
        draw_timeline(alloc, words, &mut files, sink)
    } else {
        wave(alloc, words, &mut files, sink)
    }
}

/// Says what was written: the usage line by its name, and the text of the name that is wanted by that.
fn say_text(texts: &Texts, row: &Row<'_>, held: &[u8], told: &mut Told) {
    let (_, name) = row.wanted.split_once(" / ").unwrap_or(("", ""));
    told.word("/");
    let shown = text_after(kind_of(row), std::str::from_utf8(held).unwrap_or("no text"));
    if held == usage(kind_of(row)) {
        told.word("USAGE");
    } else if !shown.is_empty() && texts.get(name).unwrap_or(b"") == shown.as_bytes() {
        told.word(name);
    } else {
        told.text(shown.as_bytes());
    }
}

/// The usage line of the program that a kind names.
fn usage(kind: &str) -> &'static [u8] {
    if is_drawing(kind) {
        lgx_picture::USAGE
    } else {
        lgx_chart::USAGE
    }
}

/// What of a text is looked at.
fn text_after<'a>(kind: &str, text: &'a str) -> &'a str {
    let mark = match kind {
        "changes" | "ticks" => DEFINED,
        "drawn" | "drawn-tick" => EXPLAINED,
        _ => return text,
    };
    match text.split_once(mark) {
        Some((_, after)) => after,
        None => text,
    }
}
