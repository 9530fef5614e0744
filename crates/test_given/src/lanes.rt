// Rows of scripts whose lanes run on threads, and of stations.
use crate::calls::{Request, call_on_two};
use crate::complete::journal_trouble;
use crate::fields::{cut, unsigned_of, word_at};
use crate::folders::{bytes_in, trouble_of_report};
use crate::gates::Hold;
use crate::made::{full_script_of, script_of};
use crate::program::Program;
use lgx_answer::Status;
use lgx_io::MemSink;
use std::alloc::Global;
use std::rt::Files as FileAccess;
use std::sync::Wait;
use std::thread::Threads;

/// The most lines that are cut.
const MOST_LINES: u32 = 1000;

/// What a row gives: the contents of its files, and its numbers.
#[derive(Clone, Copy)]
struct Given<'a> {
    alloc: Global,
    project: &'a [u8],
    script: &'a str,
    first: u32,
    second: u32,
}

/// What isn't as it should be of a row of lanes, `PROJECT SCRIPT NUMBERS`. A file that can't be read is empty.
pub(crate) fn trouble_of_lanes<P: Program, R: FileAccess + Threads + Wait + Sync>(
    rt: &R,
    program: &P,
    alloc: Global,
    kind: &str,
    row: &str,
) -> Option<&'static str> {
    let project = bytes_in(rt, alloc, "lanes", word_at(row, 0));
    let script = bytes_in(rt, alloc, "lanes", word_at(row, 1));
    let given = Given {
        alloc,
        project: &project,
        script: std::str::from_utf8(&script).unwrap_or(""),
        first: unsigned_of(word_at(row, 2)),
        second: unsigned_of(word_at(row, 3)),
    };
    trouble_of_kind(rt, program, kind, given)
}

fn trouble_of_kind<P: Program, R: Threads + Wait + Sync>(
    rt: &R,
    program: &P,
    kind: &str,
    given: Given<'_>,
) -> Option<&'static str> {
    match kind {
        "run" => trouble_of_run(rt, program, given, &Hold::Nobody),
        "pair" => trouble_of_pair(rt, program, given, given.first, given.second),
        "pairs" => trouble_of_pairs(rt, program, given),
        "cut" => trouble_of_cuts(rt, program, given),
        "lines" => trouble_of_lines(rt, program, given),
        "made" => trouble_of_made(rt, program, given),
        "full" => trouble_of_full(rt, program, given),
        _ => Some("no such kind"),
    }
}

/// A run of a script under a gate, into a sink that fails at a put; at none if its number is 0. Answers its status, and what was
/// written.
fn run<P: Program, R: Threads + Wait + Sync>(
    rt: &R,
    program: &P,
    given: Given<'_>,
    failing: u32,
    hold: &Hold,
) -> (Status, MemSink) {
    let request = Request {
        words: "run P S",
        first: given.project,
        second: given.script.as_bytes(),
        failing,
    };
    call_on_two(rt, program, given.alloc, &request, hold)
}

/// A run under a gate: its journal is to be complete, with no action answered held, and its replay is to give its report.
fn trouble_of_run<P: Program, R: Threads + Wait + Sync>(
    rt: &R,
    program: &P,
    given: Given<'_>,
    hold: &Hold,
) -> Option<&'static str> {
    let (status, sink) = run(rt, program, given, 0, hold);
    trouble_of_whole(rt, program, given, status, sink.held())
}

/// What a run writes is to be a journal that is complete, and the report of the journal's replay.
fn trouble_of_whole<P: Program, R: Threads + Wait + Sync>(
    rt: &R,
    program: &P,
    given: Given<'_>,
    status: Status,
    written: &[u8],
) -> Option<&'static str> {
    let trouble = trouble_of_written(given.script, status, written);
    if trouble.is_some() {
        return trouble;
    }
    trouble_of_report(rt, program, given.alloc, given.project, written)
}

/// What a run writes is to be a journal that is complete, and a report with no action answered held.
fn trouble_of_written(script: &str, status: Status, written: &[u8]) -> Option<&'static str> {
    if status != Status::Ok {
        return Some("the status isn't Ok");
    }
    let written = std::str::from_utf8(written).unwrap_or("");
    let (journal, report) = cut(written, "\nend\n");
    if report.is_empty() {
        return Some("the journal has no end");
    }
    if report.contains(" held\n") {
        return Some("an action is held");
    }
    journal_trouble(script, journal)
}

/// A run in which two lanes meet before their second actions.
fn trouble_of_pair<P: Program, R: Threads + Wait + Sync>(
    rt: &R,
    program: &P,
    given: Given<'_>,
    first: u32,
    second: u32,
) -> Option<&'static str> {
    let hold = Hold::till_both(first, second);
    let trouble = trouble_of_run(rt, program, given, &hold);
    if hold.met() {
        trouble
    } else {
        Some("the lanes didn't meet")
    }
}

/// Each pair of the first lanes in turn.
fn trouble_of_pairs<P: Program, R: Threads + Wait + Sync>(
    rt: &R,
    program: &P,
    given: Given<'_>,
) -> Option<&'static str> {
    for second in 0..given.first {
        for first in 0..second {
            let trouble = trouble_of_pair(rt, program, given, first, second);
            if trouble.is_some() {
                return trouble;
            }
        }
    }
    None
}

/// A run into a sink that fails at its first put, at its second, and so on, until there is no put more.
fn trouble_of_cuts<P: Program, R: Threads + Wait + Sync>(
    rt: &R,
    program: &P,
    given: Given<'_>,
) -> Option<&'static str> {
    for failing in 1..MOST_LINES {
        let (status, sink) = run(rt, program, given, failing, &Hold::Nobody);
        if status == Status::Ok {
            return trouble_of_whole(rt, program, given, status, sink.held());
        }
        let trouble = trouble_of_cut(status, sink.held(), failing);
        if trouble.is_some() {
            return trouble;
        }
    }
    Some("too many puts")
}

/// A run whose sink failed at a put is to be a write fault, after as many lines as puts before.
fn trouble_of_cut(status: Status, written: &[u8], failing: u32) -> Option<&'static str> {
    if status != Status::WriteFault {
        Some("the status isn't WriteFault")
    } else if lines_in(written) != failing.saturating_sub(1) {
        Some("another number of lines than puts")
    } else {
        None
    }
}

/// How many lines a text has.
fn lines_in(text: &[u8]) -> u32 {
    let mut count = 0u32;
    for byte in text {
        if *byte == b'\n' {
            count = count.saturating_add(1);
        }
    }
    count
}

/// The script cut after each line but its last: it is refused at the line that is missing.
fn trouble_of_lines<P: Program, R: Threads + Wait + Sync>(
    rt: &R,
    program: &P,
    given: Given<'_>,
) -> Option<&'static str> {
    let mut length = 0usize;
    let mut number = 1u32;
    for line in given.script.split('\n') {
        if line == "end" {
            break;
        }
        let front = given.script.get(..length).unwrap_or("");
        if !is_refused_at(
            rt,
            program,
            Given {
                script: front,
                ..given
            },
            number,
        ) {
            return Some("a script without its end isn't refused there");
        }
        length = length.saturating_add(line.len()).saturating_add(1);
        number = number.saturating_add(1);
    }
    None
}

/// Whether a script is refused at a line, since it has no end.
fn is_refused_at<P: Program, R: Threads + Wait + Sync>(
    rt: &R,
    program: &P,
    given: Given<'_>,
    number: u32,
) -> bool {
    let mut wanted = String::new(given.alloc);
    let is_whole = write!(wanted, "script J1 line {number}\n").is_ok();
    let (status, sink) = run(rt, program, given, 0, &Hold::Nobody);
    is_whole && status == Status::Script && sink.held() == wanted.as_bytes()
}

/// Made scripts under gates that hold lanes at random.
fn trouble_of_made<P: Program, R: Threads + Wait + Sync>(
    rt: &R,
    program: &P,
    given: Given<'_>,
) -> Option<&'static str> {
    for number in 0..given.first {
        let script = script_of(given.alloc, given.script, u64::from(number));
        let made = Given {
            script: script.as_str(),
            ..given
        };
        let trouble = trouble_of_run(rt, program, made, &Hold::at_random(u64::from(number)));
        if trouble.is_some() {
            return trouble;
        }
    }
    None
}

/// A script with very many actions: its journal is to be complete. It isn't replayed, since with 100,000 actions the journal has
/// one more than may be read, its `mode run`.
fn trouble_of_full<P: Program, R: Threads + Wait + Sync>(
    rt: &R,
    program: &P,
    given: Given<'_>,
) -> Option<&'static str> {
    let script = full_script_of(given.alloc, given.script, given.first);
    let full = Given {
        script: script.as_str(),
        ..given
    };
    let (status, sink) = run(rt, program, full, 0, &Hold::Nobody);
    if status != Status::Ok {
        return Some("the status isn't Ok");
    }
    let written = std::str::from_utf8(sink.held()).unwrap_or("");
    journal_trouble(script.as_str(), cut(written, "\nend\n").0)
}
