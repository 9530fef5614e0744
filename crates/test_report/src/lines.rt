// Rows of one line.
use crate::replies::reply_of;
use crate::words::{number_at, value_at, word_at};
use lgx_num::{Items, Memory};
use lgx_watch::{Fault, Line, Log, Mode, Names, Severity, end_text, line_text, push_line_text};
use std::alloc::Global;
use test_rows::{Row, Told};

/// Says the text of a row's line.
pub(crate) fn say_line(alloc: Global, row: &Row<'_>, told: &mut Told) {
    let mut text = Vec::new(alloc);
    let is_whole = match line_of(row.kind, row.given) {
        Some(line) => push_line(alloc, &mut text, row, line).is_ok(),
        None => false,
    };
    if !is_whole {
        told.lack();
    }
    told.text(&text);
}

/// The line of a row; none, if it isn't of the form of its kind.
fn line_of(kind: &str, given: &str) -> Option<Line> {
    match kind {
        "begin" | "alone" => Some(Line::Begin {
            task: number_at(given, 2),
            program: number_at(given, 3),
            version: number_at(given, 4),
        }),
        "fault" => Some(Line::Fault(fault_of(given))),
        "set" => Some(Line::Set {
            watch: number_at(given, 2),
            value: value_at(given, 3),
        }),
        "reply" => Some(Line::Reply {
            lane: number_at(given, 2),
            reply: reply_of(given)?,
        }),
        _ => None,
    }
}

fn fault_of(given: &str) -> Fault {
    let is_major = word_at(given, 4) == "major";
    Fault {
        severity: if is_major {
            Severity::Major
        } else {
            Severity::Minor
        },
        kind: byte_at(given, 5),
        code: byte_at(given, 6),
        task: number_at(given, 2),
        program: (word_at(given, 3) != "-").then_some(number_at(given, 3)),
        tick: number_at(given, 0),
    }
}

fn byte_at(given: &str, number: usize) -> u8 {
    u8::try_from(number_at(given, number)).unwrap_or(0)
}

/// Adds the text of a line, which is the only one of a log, or is made by itself.
fn push_line(alloc: Global, text: &mut Vec<u8>, row: &Row<'_>, line: Line) -> Result<(), Memory> {
    let names = names(alloc)?;
    let mut log = Log::new(alloc)?;
    if log.lost() == 0 {
        log.push(number_at(row.given, 0), number_at(row.given, 1), line);
    }
    if log.lines() == 0 {
        return Ok(());
    }
    if row.kind == "alone" {
        text.extend_from_slice(line_text(alloc, &log, 0, &names)?.as_slice())?;
        return Ok(());
    }
    push_line_text(text, &log, 0, &names)
}

fn names(alloc: Global) -> Result<Names, Memory> {
    Ok(Names {
        tasks: words(alloc, [b"T", b"Event_Task"])?,
        programs: words(alloc, [b"P", b"Q"])?,
        watches: words(alloc, [b"t.ACC", b"Program:P.x"])?,
    })
}

fn words(alloc: Global, texts: [&[u8]; 2]) -> Result<Items<Items<u8>>, Memory> {
    let mut items = Vec::new(alloc);
    for text in texts {
        items.push(Items::of(text.to_vec(alloc)?))?;
    }
    Ok(Items::of(items))
}

/// Says the end line of a report that lost nothing.
pub(crate) fn say_end(alloc: Global, given: &str, told: &mut Told) {
    let mut text = Vec::new(alloc);
    if push_end(alloc, &mut text, given).is_err() {
        told.lack();
    }
    told.text(&text);
}

fn push_end(alloc: Global, text: &mut Vec<u8>, given: &str) -> Result<(), Memory> {
    let mode = match word_at(given, 2) {
        "program" => Mode::Program,
        "run" => Mode::Run,
        _ => Mode::Faulted,
    };
    let log = Log::new(alloc)?;
    let end = end_text(alloc, number_at(given, 0), number_at(given, 1), mode, &log)?;
    text.extend_from_slice(end.as_slice())?;
    Ok(())
}
