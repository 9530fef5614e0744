//! Judges the rows of a table on standard input: calls of the program, and of the files and sinks that it is called with.
//!
//! The kinds of rows are in `test_given`. One more is `stretches | STEPS PROJECT | COUNT`: in how many stretches the controller
//! makes STEPS processor steps in Run of the project that is the text of this name.
//!
//! What differs is printed, and at the end how many rows there were.
#![tactic(auto)]

mod program;
mod stretches;

use program::Logix;
use std::io;
use stretches::say_stretches;
use test_given::judge;
use test_rows::judge_table;

fn main(rt: HostRuntime) -> io::Result<()> {
    judge_table(&rt, |texts, row, told| {
        if row.kind == "stretches" {
            say_stretches(texts, row.given, told);
        } else {
            judge(&rt, &Logix, texts, row, told);
        }
    })
}
