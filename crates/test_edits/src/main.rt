//! Judges the rows of a table of online edits on standard input.
//!
//! A row is `KIND | WHAT IS GIVEN | WHAT COMES OUT`; of what form the second part is, the function of the kind says.
//! `{{N*TEXT}}` in it stands for N times the text, and `\p` for a bar. Lines that begin with `--` say why a row is
//! so. What differs is printed, and at the end how many rows there were.
#![tactic(auto)]

mod bench;
mod book;
mod trouble;

use std::alloc::Global;
use std::io;
use test_rows::{Row, Texts, Told, expanded, judge_table};
use trouble::Trouble;

fn main(rt: HostRuntime) -> io::Result<()> {
    judge_table(&rt, found)
}

/// Says what comes out of a row, or why nothing can be said.
fn found(texts: &Texts, row: &Row<'_>, said: &mut Told) {
    if let Err(trouble) = say(texts.alloc, said, row) {
        said.shown(&trouble);
    }
}

fn say(alloc: Global, said: &mut Told, row: &Row<'_>) -> Result<(), Trouble> {
    if row.kind != "book" {
        return Err(Trouble::Form);
    }
    let given = expanded(alloc, row.given)?;
    book::say_book(alloc, said, given.as_str())
}
