// Rows of calls over files in folders.
use crate::calls::{Request, call_on_two, sink_failing_at, words_of};
use crate::case::push_word;
use crate::fields::{cut, word_at};
use crate::gates::Hold;
use crate::program::Program;
use lgx_answer::Status;
use lgx_io::{Files, HostFiles, MemSink};
use std::alloc::{AllocError, Global};
use std::rt::Files as FileAccess;
use std::sync::Wait;
use std::thread::Threads;
use test_rows::Told;

/// The bytes of a file of a folder; none if it can't be read.
pub(crate) fn bytes_in<R: FileAccess>(rt: &R, alloc: Global, folder: &str, name: &str) -> Vec<u8> {
    let mut path = String::new(alloc);
    let _ = push_path(&mut path, folder, name);
    match HostFiles::new(rt, alloc).read(path.as_str()) {
        Ok(bytes) => bytes,
        Err(_) => Vec::new(alloc),
    }
}

fn push_path(path: &mut String, folder: &str, name: &str) -> Result<(), AllocError> {
    path.push_str(folder)?;
    path.push('/')?;
    path.push_str(name)
}

/// The words, of which all but the first are files of a folder, as paths; fewer, where there is no memory.
fn paths_of(alloc: Global, folder: &str, words: &str) -> Vec<String> {
    let (verb, files) = cut(words, " ");
    let mut words = words_of(alloc, verb);
    let _ = push_paths(alloc, &mut words, folder, files);
    words
}

fn push_paths(
    alloc: Global,
    words: &mut Vec<String>,
    folder: &str,
    files: &str,
) -> Result<(), AllocError> {
    for file in files.split_whitespace() {
        push_word(alloc, words, "")?;
        if let Some(path) = words.last_mut() {
            push_path(path, folder, file)?;
        }
    }
    Ok(())
}

/// A call with these words, of which all but the first are files of a folder. Answers its status, and the sink with what was
/// written.
fn call_in<P: Program, R: FileAccess + Threads + Wait + Sync>(
    rt: &R,
    program: &P,
    alloc: Global,
    folder: &str,
    words: &str,
) -> (Status, MemSink) {
    let words = paths_of(alloc, folder, words);
    let mut sink = sink_failing_at(alloc, 0);
    let mut files = HostFiles::new(rt, alloc);
    let status = program.call(rt, alloc, &words, &mut files, &mut sink, &Hold::Nobody);
    (status, sink)
}

/// Says `STATUS / FILE` of a call with the words of `FOLDER WORDS`, if it writes what the folder's file has that is wanted, and
/// else what it writes.
pub(crate) fn say_folder<P: Program, R: FileAccess + Threads + Wait + Sync>(
    rt: &R,
    program: &P,
    alloc: Global,
    given: &str,
    wanted: &str,
    told: &mut Told,
) {
    let (folder, words) = cut(given, " ");
    let (status, sink) = call_in(rt, program, alloc, folder, words);
    told.shown(&status);
    told.word("/");
    let file = cut(wanted, " / ").1;
    say_written(&bytes_in(rt, alloc, folder, file), file, sink.held(), told);
}

/// Says the name of a file, if its text was written, and else what was.
fn say_written(text: &[u8], file: &str, written: &[u8], told: &mut Told) {
    if !text.is_empty() && written == text {
        told.word(file);
    } else {
        told.text(written);
    }
}

/// Says `right` of a run with the words of `FOLDER run PROJECT SCRIPT`, if it writes a journal and then the report that the
/// journal's replay gives.
pub(crate) fn say_again<P: Program, R: FileAccess + Threads + Wait + Sync>(
    rt: &R,
    program: &P,
    alloc: Global,
    given: &str,
    told: &mut Told,
) {
    let (folder, words) = cut(given, " ");
    let (status, sink) = call_in(rt, program, alloc, folder, words);
    if status == Status::Ok {
        let project = bytes_in(rt, alloc, folder, word_at(words, 1));
        let trouble = trouble_of_report(rt, program, alloc, &project, sink.held());
        told.word(trouble.unwrap_or("right"));
    } else {
        told.shown(&status);
    }
}

/// Why the report that a run wrote after its journal isn't that of the journal's replay; none if it is.
pub(crate) fn trouble_of_report<P: Program, R: Threads + Wait + Sync>(
    rt: &R,
    program: &P,
    alloc: Global,
    project: &[u8],
    written: &[u8],
) -> Option<&'static str> {
    let written = std::str::from_utf8(written).unwrap_or("");
    let (journal, report) = cut(written, "\nend\n");
    if report.is_empty() {
        return Some("no journal");
    }
    let length = journal.len().saturating_add(5).min(written.len());
    let journal = written.as_bytes().get(..length).unwrap_or(b"");
    let request = Request {
        words: "replay P S",
        first: project,
        second: journal,
        failing: 0,
    };
    let (status, sink) = call_on_two(rt, program, alloc, &request, &Hold::Nobody);
    let is_same = status == Status::Ok && sink.held() == report.as_bytes();
    (!is_same).then_some("the replay's report is another")
}
