//! Judges the rows of a table of sessions on standard input: calls of `logix_live` over a reader and a writer in memory.
//!
//! A row is `KIND | GIVEN | STATUS / TALK`. The status is how the call ends. TALK is what was written, `\n` for a line feed,
//! with a `?` wherever the first byte of a line was asked for, or a `!` if something was written then that wasn't flushed. `-` is
//! nothing: no line was asked for.
//!
//! - `session`: the project is the text `PROJECT`, and GIVEN is what comes in, in which `{{N*TEXT}}` stands for the text N times,
//!   and `\s`, `\r`, `\n` and `\p` for a blank, CR, LF and the bar.
//! - `call`: GIVEN is `WORDS` or `WORDS / SETTING`, and what comes in is the text `INPUT`. Each word that is the name of a text is
//!   the name of a file with this text. With the setting `read` the file can't be read; with `blanks=N` it has N blanks; with
//!   `write=N` the Nth write or flush fails.
//! - `read-faults`, `write-faults`: as `session`, and the row wants TALK alone. The session is held again and again: it fails at
//!   its first read of a byte, at its second, and so on; or at its first write or flush, and from then on, at its second, and so
//!   on. Each that fails ends with the status `ReadFault` after a first part of TALK whose last byte is a `?`, or with `WriteFault`
//!   after any first part of it; and the first that makes too few calls to fail, which is not the first of all, has all of it.
//!
//! The reader gives a byte at once, and the writer takes two at most; each second read, and each second call of the writer if it is
//! a write, is interrupted. Lines that name a text are those of `test_rows`. What differs is printed, and at the end how many rows
//! there were.
#![tactic(auto)]

mod ends;
mod faults;
mod given;
mod sessions;

use faults::{Side, say_faults};
use sessions::{say_call, say_session};
use std::io;
use test_rows::{Row, Texts, Told, judge_table};

fn main(rt: HostRuntime) -> io::Result<()> {
    judge_table(&rt, say)
}

/// Says what comes out of a row.
fn say(texts: &Texts, row: &Row<'_>, told: &mut Told) {
    match row.kind {
        "session" => say_session(texts, row.given, told),
        "call" => say_call(texts, row.given, told),
        "read-faults" => say_faults(texts, row, Side::Reads, told),
        "write-faults" => say_faults(texts, row, Side::Writes, told),
        _ => told.malformed(),
    }
}
