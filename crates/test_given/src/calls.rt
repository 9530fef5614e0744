// Rows of calls over files in memory.
use crate::case::{Case, push_file, push_word};
use crate::fields::cut;
use crate::gates::Hold;
use crate::program::Program;
use lgx_answer::Status;
use lgx_io::{MemFiles, MemSink, SureFiles, SureSink};
use std::alloc::{AllocError, Global};
use std::sync::Wait;
use std::thread::Threads;
use test_rows::{Row, Texts, Told};

/// Says `STATUS / TEXT` of a call over files and a sink that fail where the row says.
pub(crate) fn say_call<P: Program, R: Threads + Wait + Sync>(
    rt: &R,
    program: &P,
    texts: &Texts,
    row: &Row<'_>,
    hold: &Hold,
    told: &mut Told,
) {
    let mut case = Case::new(texts.alloc);
    if case.add(texts, row.given).is_err() {
        told.lack();
    }
    let Case {
        words,
        files,
        reads,
        puts,
    } = case;
    let mut files = MemFiles::new(texts.alloc, files, reads);
    let mut sink = MemSink::new(texts.alloc, puts);
    let status = program.call(rt, texts.alloc, &words, &mut files, &mut sink, hold);
    told.shown(&status);
    say_held(program, texts, row, sink.held(), told);
}

/// Says the same of a call over files and a sink that never fail.
pub(crate) fn say_sure_call<P: Program, R: Threads + Wait + Sync>(
    rt: &R,
    program: &P,
    texts: &Texts,
    row: &Row<'_>,
    told: &mut Told,
) {
    let mut case = Case::new(texts.alloc);
    if case.add(texts, row.given).is_err() {
        told.lack();
    }
    let Case { words, files, .. } = case;
    let mut files = SureFiles::new(texts.alloc, files);
    let mut sink = SureSink::new(texts.alloc);
    let hold = Hold::Nobody;
    let status = program.call(rt, texts.alloc, &words, &mut files, &mut sink, &hold);
    told.shown(&status);
    say_held(program, texts, row, sink.held(), told);
}

/// Says what a sink holds: the usage line by its name, and the text of the name that is wanted by that.
fn say_held<P: Program>(program: &P, texts: &Texts, row: &Row<'_>, held: &[u8], told: &mut Told) {
    told.word("/");
    let name = cut(row.wanted, " / ").1;
    if held == program.usage() {
        told.word("USAGE");
    } else if !held.is_empty() && texts.get(name).unwrap_or(b"") == held {
        told.word(name);
    } else {
        told.text(held);
    }
}

/// A call over two files in memory, `P` and `S`.
#[derive(Clone, Copy)]
pub(crate) struct Request<'a> {
    pub words: &'a str,
    pub first: &'a [u8],
    pub second: &'a [u8],
    /// The number of the put that fails; 0 if none does.
    pub failing: u32,
}

/// Makes such a call. Answers its status, and the sink with what was written.
pub(crate) fn call_on_two<P: Program, R: Threads + Wait + Sync>(
    rt: &R,
    program: &P,
    alloc: Global,
    request: &Request<'_>,
    hold: &Hold,
) -> (Status, MemSink) {
    let mut files = two_files(alloc, request.first, request.second);
    let mut sink = sink_failing_at(alloc, request.failing);
    let words = words_of(alloc, request.words);
    let status = program.call(rt, alloc, &words, &mut files, &mut sink, hold);
    (status, sink)
}

/// Files in memory, `P` and `S` with these contents.
fn two_files(alloc: Global, first: &[u8], second: &[u8]) -> MemFiles {
    let mut files = Vec::new(alloc);
    let _ = push_two(alloc, &mut files, first, second);
    MemFiles::new(alloc, files, Vec::new(alloc))
}

fn push_two(
    alloc: Global,
    files: &mut Vec<(String, Vec<u8>)>,
    first: &[u8],
    second: &[u8],
) -> Result<(), AllocError> {
    push_file(alloc, files, "P", first)?;
    push_file(alloc, files, "S", second)
}

/// A sink in memory that fails at a put; at none if its number is 0.
pub(crate) fn sink_failing_at(alloc: Global, put: u32) -> MemSink {
    let mut puts = Vec::new(alloc);
    if put > 0 {
        let _ = puts.push((put, 0u32));
    }
    MemSink::new(alloc, puts)
}

/// The words of a text, as many as there is memory for.
pub(crate) fn words_of(alloc: Global, text: &str) -> Vec<String> {
    let mut words = Vec::new(alloc);
    let _ = push_words(alloc, &mut words, text);
    words
}

fn push_words(alloc: Global, words: &mut Vec<String>, text: &str) -> Result<(), AllocError> {
    for word in text.split_whitespace() {
        push_word(alloc, words, word)?;
    }
    Ok(())
}
