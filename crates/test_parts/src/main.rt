//! Judges the rows of a table of the controller's parts on standard input: numbers, names, text, the image, the
//! tables of faults, tasks, connections and forces, journals, scripts and generated texts.
//!
//! A row is `KIND | WHAT IS GIVEN | WHAT COMES OUT`; of what form the second part is, the function of the kind says.
//! Lines that begin with `--` say why a row is so. What differs is printed, and at the end how many rows there were.
#![tactic(auto)]

mod conn;
mod fault;
mod force;
mod image;
mod journal;
mod made;
mod num;
mod rung;
mod sched;
mod trouble;

use std::alloc::Global;
use std::io;
use test_rows::{Row, Texts, Told, judge_table};
use trouble::Trouble;

fn main(rt: HostRuntime) -> io::Result<()> {
    judge_table(&rt, found)
}

/// Says what comes out of a row, or why nothing can be said.
fn found(texts: &Texts, row: &Row<'_>, said: &mut Told) {
    if let Err(trouble) = say(texts.alloc, said, row.kind, row.given) {
        said.shown(&trouble);
    }
}

/// Says what comes out of a row of a kind.
fn say(alloc: Global, said: &mut Told, kind: &str, given: &str) -> Result<(), Trouble> {
    match kind {
        "name" => num::say_name(said, given),
        "same" => num::say_same(said, given),
        "keep" => num::say_kept(said, given),
        "bytes" => num::say_bytes(said, given),
        "op" => rung::say_op(said, given),
        "grain" => image::say_grains(said, given),
        _ => return say_made(alloc, said, kind, given),
    }
    Ok(())
}

/// The kinds for which something is made.
fn say_made(alloc: Global, said: &mut Told, kind: &str, given: &str) -> Result<(), Trouble> {
    match kind {
        "rung" => rung::say_rung(alloc, said, given),
        "items" => num::say_items(alloc, said, given),
        "subscripts" => image::say_element(alloc, said, given),
        "bind" => image::say_bound(alloc, said, given),
        "journal" => journal::say_journal(alloc, said, given),
        "runs" => journal::say_runs(alloc, said, given),
        "again" => journal::say_again(alloc, said, given),
        "script" => journal::say_script(alloc, said, given),
        "lanes" => journal::say_lanes(alloc, said, given),
        "project" => made::say_project(alloc, said, given),
        "events" => made::say_events(alloc, said, given),
        _ => say_calls(alloc, said, kind, given),
    }
}

/// The kinds of which something is made first, and then calls on it are answered.
fn say_calls(alloc: Global, said: &mut Told, kind: &str, given: &str) -> Result<(), Trouble> {
    let (made, calls) = given.split_once('?').ok_or(Trouble::Form)?;
    match kind {
        "image" => image::say_image(alloc, said, made, calls),
        "tasks" => sched::say_tasks(alloc, said, made, calls),
        "conns" => conn::say_conns(alloc, said, made, calls),
        "log" => fault::say_log(alloc, said, made, calls),
        "forces" => force::say_forces(alloc, said, made, calls),
        _ => Err(Trouble::Form),
    }
}
