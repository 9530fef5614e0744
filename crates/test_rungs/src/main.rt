//! Judges the rows of a table of rungs on standard input: what their operands name, what is refused, their flat code,
//! and what they do when they are scanned on the engine or prescanned.
//!
//! A row is `KIND | WHAT IS GIVEN | WHAT COMES OUT`; of what form the second part is, the function of the kind says.
//! `{{N*TEXT}}` in it stands for N times the text. Lines that begin with `--` say why a row is so. What differs is
//! printed, and at the end how many rows there were.
#![tactic(auto)]

mod bench;
mod checks;
mod declared;
mod errors;
mod flat;
mod layout;
mod named;
mod operand;
mod program;
mod read;
mod scans;
mod tags;
mod types;
mod words;
mod world;

use errors::Refusal;
use std::alloc::Global;
use std::io;
use test_rows::{Row, Texts, Told, expanded, judge_table};

fn main(rt: HostRuntime) -> io::Result<()> {
    judge_table(&rt, found)
}

/// Says what comes out of a row, or why nothing can be said.
fn found(texts: &Texts, row: &Row<'_>, said: &mut Told) {
    if let Err(refusal) = say_row(texts.alloc, said, row) {
        said.shown(&refusal);
    }
}

fn say_row(alloc: Global, said: &mut Told, row: &Row<'_>) -> Result<(), Refusal> {
    let given = expanded(alloc, row.given)?;
    say(alloc, said, row.kind, given.as_str())
}

fn say(alloc: Global, said: &mut Told, kind: &str, given: &str) -> Result<(), Refusal> {
    match kind {
        "scan" => scans::say_scan(alloc, said, given),
        "prescan" => scans::say_prescan(alloc, said, given),
        "scans" => scans::say_scans(alloc, said, given),
        "check" => checks::say_check(alloc, said, given),
        "labels" => checks::say_labels(alloc, said, given),
        "samples" => checks::say_samples(alloc, said, given),
        "each" => checks::say_each(alloc, said, given),
        "means" => checks::say_meaning(alloc, said, given),
        "code" => flat::say_routine(alloc, said, given),
        "copy" => Ok(operand::say_copy(alloc, said, given)?),
        _ => say_calls(alloc, said, kind, given),
    }
}

/// The kinds of which something is made first, and then calls on it are answered.
fn say_calls(alloc: Global, said: &mut Told, kind: &str, given: &str) -> Result<(), Refusal> {
    let (made, calls) = given.split_once('?').ok_or(Refusal::Form)?;
    match kind {
        "program" => flat::say_program(alloc, said, made, calls),
        "types" => layout::say_types(alloc, said, made, calls),
        "tags" => named::say_tags(alloc, said, made, calls),
        _ => Err(Refusal::Form),
    }
}
