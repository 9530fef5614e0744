// Rows of files and sinks alone.
use crate::case::{Case, File};
use crate::fields::{cut, unsigned_of};
use crate::slow::Slow;
use lgx_io::{
    FileFault, Files, Gathered, HostFiles, MemFiles, MemSink, Sink, SinkFault, SureFiles,
    read_to_end, write_all,
};
use std::alloc::Global;
use std::fs;
use std::io::BufWriter;
use std::rt::Files as FileAccess;
use test_rows::{Texts, Told, push_plain};

/// Says `ANSWERS / -` of reads of files that fail where the row says.
pub(crate) fn say_reads(texts: &Texts, given: &str, told: &mut Told) {
    let mut case = Case::new(texts.alloc);
    if case.add(texts, given).is_err() {
        told.lack();
    }
    let Case {
        words,
        files,
        reads,
        ..
    } = case;
    let mut files = MemFiles::new(texts.alloc, files, reads);
    say_all_reads(&words, &mut files, told, &mut Vec::new(texts.alloc));
    say_held(b"", told);
}

/// Says `ANSWERS / -` of reads of files that never fail.
pub(crate) fn say_sure_reads(texts: &Texts, given: &str, told: &mut Told) {
    let mut case = Case::new(texts.alloc);
    if case.add(texts, given).is_err() {
        told.lack();
    }
    let mut files = SureFiles::new(texts.alloc, case.files);
    say_all_reads(&case.words, &mut files, told, &mut Vec::new(texts.alloc));
    say_held(b"", told);
}

/// Says `ANSWERS / BYTES` of reads of files of the system, which are written before and removed after.
pub(crate) fn say_host_reads<R: FileAccess>(rt: &R, texts: &Texts, given: &str, told: &mut Told) {
    let mut case = Case::new(texts.alloc);
    if case.add(texts, given).is_err() {
        told.lack();
    }
    write_files(rt, &case.files, told);
    let mut all = Vec::new(texts.alloc);
    say_all_reads(
        &case.words,
        &mut HostFiles::new(rt, texts.alloc),
        told,
        &mut all,
    );
    say_held(&all, told);
    remove_files(rt, &case.files, told);
}

fn write_files<R: FileAccess>(rt: &R, files: &[File], told: &mut Told) {
    for file in files {
        if fs::write(rt, file.0.as_str(), file.1.as_slice()).is_err() {
            told.word("unwritten");
        }
    }
}

fn remove_files<R: FileAccess>(rt: &R, files: &[File], told: &mut Told) {
    for file in files {
        if fs::remove_file(rt, file.0.as_str()).is_err() {
            told.word("unremoved");
        }
    }
}

/// Says how many bytes each file gives, or its fault, and adds these bytes to all.
fn say_all_reads<F: Files>(names: &[String], files: &mut F, told: &mut Told, all: &mut Vec<u8>) {
    for name in names {
        say_read(&files.read(name.as_str()), told, all);
    }
}

fn say_read(read: &Result<Vec<u8>, FileFault>, told: &mut Told, all: &mut Vec<u8>) {
    match read {
        Ok(bytes) => {
            told.count(bytes.len());
            if all.extend_from_slice(bytes).is_err() {
                told.lack();
            }
        }
        Err(fault) => told.shown(fault),
    }
}

/// Says what is held at last.
fn say_held(held: &[u8], told: &mut Told) {
    told.word("/");
    told.text(held);
}

/// What is in a row as one text.
fn plain(alloc: Global, text: &str, told: &mut Told) -> Vec<u8> {
    let mut bytes = Vec::new(alloc);
    if push_plain(&mut bytes, text).is_err() {
        told.lack();
    }
    bytes
}

/// The number of the call of a slow reader or writer that fails; 0 if none does.
fn failing_call(setting: &str) -> u32 {
    unsigned_of(cut(setting, "call=").1)
}

/// Says what a reading of all that a slow reader has gives.
pub(crate) fn say_slow_read(texts: &Texts, given: &str, told: &mut Told) {
    let (text, setting) = cut(given, " / ");
    let mut reader = Slow::new(plain(texts.alloc, text, told), failing_call(setting));
    let mut all = Vec::new(texts.alloc);
    say_read(&read_to_end(texts.alloc, &mut reader), told, &mut all);
    say_held(&all, told);
}

/// Says what a writing of all to a slow writer does.
pub(crate) fn say_slow_write(texts: &Texts, given: &str, told: &mut Told) {
    let (text, setting) = cut(given, " / ");
    let bytes = plain(texts.alloc, text, told);
    let mut writer = Slow::new(Vec::new(texts.alloc), failing_call(setting));
    let is_written = write_all(&mut writer, &bytes);
    told.word(if is_written { "ok" } else { "Failed" });
    say_held(writer.bytes(), told);
}

/// Says what puts into a sink do that fails where the row says.
pub(crate) fn say_puts(texts: &Texts, given: &str, told: &mut Told) {
    let mut case = Case::new(texts.alloc);
    if case.add(texts, given).is_err() {
        told.lack();
    }
    let mut sink = MemSink::new(texts.alloc, case.puts);
    say_pieces(texts.alloc, &case.words, &mut sink, told);
    say_held(sink.held(), told);
}

/// Says what puts into a sink that gathers four bytes over a slow writer do, and then its finishing.
pub(crate) fn say_slow_puts(texts: &Texts, given: &str, told: &mut Told) {
    let mut case = Case::new(texts.alloc);
    if case.add(texts, given).is_err() {
        told.lack();
    }
    let setting = cut(given, " / ").1;
    let mut writer = Slow::new(Vec::new(texts.alloc), failing_call(setting));
    say_gathered(texts.alloc, &case.words, &mut writer, told);
    say_held(writer.bytes(), told);
}

fn say_gathered(alloc: Global, pieces: &[String], writer: &mut Slow, told: &mut Told) {
    if let Ok(gathering) = BufWriter::with_capacity(alloc, 4, writer) {
        let mut sink = Gathered::over(gathering);
        say_pieces(alloc, pieces, &mut sink, told);
        say_put(sink.finish(), told);
    }
}

/// Says what the put of each piece answers.
fn say_pieces<K: Sink>(alloc: Global, pieces: &[String], sink: &mut K, told: &mut Told) {
    for piece in pieces {
        let piece = plain(alloc, piece.as_str(), told);
        say_put(sink.put(&piece), told);
    }
}

fn say_put(answer: Result<(), SinkFault>, told: &mut Told) {
    told.word(match answer {
        Ok(()) => "ok",
        Err(SinkFault::Failed) => "Failed",
        Err(SinkFault::Memory) => "Memory",
    });
}
