//! Judges the rows of a table of lines of reports, of the log and of the watched places, on standard input.
//!
//! The tasks are `T` and `Event_Task`, the programs `P` and `Q`, the watched places `t.ACC` and `Program:P.x`, each given by its
//! number.
//!
//! - `begin | TICK STEP TASK PROGRAM VERSION | LINE`, and `alone` of the same line made by itself.
//! - `fault | TICK STEP TASK PROGRAM SEVERITY KIND CODE | LINE`, where a program may be `-`.
//! - `set | TICK STEP WATCH VALUE | LINE`.
//! - `reply | TICK STEP LANE WORD NUMBERS | LINE`: WORD is `done`, `word`, `version`, `held`, or a code.
//! - `end | TICK STEP MODE | LINE`.
//! - `log | COUNT | KEPT kept, LOST lost`: how many of COUNT lines a log keeps.
//! - `watches | GRAIN GRAIN .. | WATCHES`: which of five watched places have a byte in one of these grains of 64 bytes. They are at
//!   the bytes 0, 60, 64 and 60, and over the bytes 190 to 193.
//! - `words | WORD WORD .. | WATCHES`: the same of words of 4 bytes.
//!
//! What differs is printed, and at the end how many rows there were.
#![tactic(auto)]

mod kept;
mod lines;
mod replies;
mod words;

use kept::{say_log, say_watches, say_words};
use lines::{say_end, say_line};
use std::io;
use test_rows::{Row, Texts, Told, judge_table};

fn main(rt: HostRuntime) -> io::Result<()> {
    judge_table(&rt, say)
}

/// Says what comes out of a row.
fn say(texts: &Texts, row: &Row<'_>, told: &mut Told) {
    match row.kind {
        "end" => say_end(texts.alloc, row.given, told),
        "log" => say_log(texts.alloc, row.given, told),
        "watches" => say_watches(texts.alloc, row.given, told),
        "words" => say_words(texts.alloc, row.given, told),
        _ => say_line(texts.alloc, row, told),
    }
}
