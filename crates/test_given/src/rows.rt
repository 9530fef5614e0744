// Which kind of row is judged how.
use crate::calls::{say_call, say_sure_call};
use crate::edge::{
    say_host_reads, say_puts, say_reads, say_slow_puts, say_slow_read, say_slow_write,
    say_sure_reads,
};
use crate::fields::{cut, has_pieces};
use crate::folders::{say_again, say_folder};
use crate::gates::Hold;
use crate::lanes::trouble_of_lanes;
use crate::program::Program;
use crate::projects::{say_answer, say_check, say_cuts};
use std::rt::Files as FileAccess;
use std::sync::Wait;
use std::thread::Threads;
use test_rows::{Row, Texts, Told};

/// Says what comes out of a row.
pub fn judge<P: Program, R: FileAccess + Threads + Wait + Sync>(
    rt: &R,
    program: &P,
    texts: &Texts,
    row: &Row<'_>,
    told: &mut Told,
) {
    match row.kind {
        "call" => say_call(rt, program, texts, row, &Hold::Nobody, told),
        "sure" => say_sure_call(rt, program, texts, row, told),
        "crossed" => say_crossed(rt, program, texts, row, told),
        "pieces" => say_pieces(rt, program, texts, row, told),
        "check" => say_check(rt, program, texts, row.given, told),
        "cuts" => say_cuts(rt, program, texts.alloc, row.given, row.wanted, told),
        "migrate" => say_migrated(rt, program, texts, row.given, told),
        _ => judge_with_files(rt, program, texts, row, told),
    }
}

/// The same of a row that needs files of the system, or no program.
fn judge_with_files<P: Program, R: FileAccess + Threads + Wait + Sync>(
    rt: &R,
    program: &P,
    texts: &Texts,
    row: &Row<'_>,
    told: &mut Told,
) {
    match row.kind {
        "files" => say_folder(rt, program, texts.alloc, row.given, row.wanted, told),
        "again" => say_again(rt, program, texts.alloc, row.given, told),
        "read-host" => say_host_reads(rt, texts, row.given, told),
        _ => {
            let (before, lanes) = cut(row.kind, "lanes-");
            if before.is_empty() {
                let trouble = trouble_of_lanes(rt, program, texts.alloc, lanes, row.given);
                told.word(trouble.unwrap_or("right"));
            } else {
                judge_edge(texts, row, told);
            }
        }
    }
}

/// The same of a row of files or sinks alone.
fn judge_edge(texts: &Texts, row: &Row<'_>, told: &mut Told) {
    match row.kind {
        "read" => say_reads(texts, row.given, told),
        "read-sure" => say_sure_reads(texts, row.given, told),
        "read-slow" => say_slow_read(texts, row.given, told),
        "put" => say_puts(texts, row.given, told),
        "put-slow" => say_slow_puts(texts, row.given, told),
        "write-slow" => say_slow_write(texts, row.given, told),
        _ => told.malformed(),
    }
}

fn say_crossed<P: Program, R: Threads + Wait + Sync>(
    rt: &R,
    program: &P,
    texts: &Texts,
    row: &Row<'_>,
    told: &mut Told,
) {
    let hold = Hold::crossed();
    say_call(rt, program, texts, row, &hold, told);
    if !hold.met() {
        told.word("one waited in vain, or the reads weren't 1,000");
    }
}

fn say_migrated<P: Program, R: Threads + Wait + Sync>(
    rt: &R,
    program: &P,
    texts: &Texts,
    text: &str,
    told: &mut Told,
) {
    say_answer(rt, program, texts.alloc, "migrate P", text.as_bytes(), told);
}

/// Says what is wanted, if a call writes the pieces that are wanted, and else what it writes.
fn say_pieces<P: Program, R: Threads + Wait + Sync>(
    rt: &R,
    program: &P,
    texts: &Texts,
    row: &Row<'_>,
    told: &mut Told,
) {
    say_call(rt, program, texts, row, &Hold::Nobody, told);
    if has_pieces(told.as_str(), row.wanted) {
        told.clear();
        told.word(row.wanted);
    }
}
