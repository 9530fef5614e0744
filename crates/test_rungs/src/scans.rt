// Rows of programs that run, or are prescanned.
use crate::bench::{Bench, Scan, prescan_text};
use crate::errors::Refusal;
use crate::tags::{image_of, say_tags};
use crate::words::{is_last, say_steps};
use lgx_num::Flags;
use std::alloc::Global;
use test_rows::Told;

/// `scan | PROGRAM / BEFORE | STEPS / AFTER`: what the steps of one scan of the program do, and the tags that aren't
/// 0 after it.
///
/// The tags that are set before are given as in `image_of`; `now=103` is the tick, 0 if it isn't given, `S:FS` the
/// first scan, and `S:V`, `S:Z` and `S:N` the flags that are on.
pub fn say_scan(alloc: Global, said: &mut Told, given: &str) -> Result<(), Refusal> {
    let (program, before) = given.split_once('/').ok_or(Refusal::Form)?;
    let mut bench = Bench::load(alloc, program, before, flags_of(before))?;
    say_run(alloc, said, &mut bench, scan_of(before))
}

fn say_run(alloc: Global, said: &mut Told, bench: &mut Bench, scan: Scan) -> Result<(), Refusal> {
    say_steps(alloc, said, bench, scan)?;
    said.word("/");
    say_tags(alloc, said, bench.image())?;
    Ok(())
}

fn flags_of(before: &str) -> Flags {
    Flags {
        v: before.contains("S:V"),
        z: before.contains("S:Z"),
        n: before.contains("S:N"),
    }
}

fn scan_of(before: &str) -> Scan {
    Scan {
        now: tick_of(before),
        first: before.contains("S:FS"),
    }
}

/// The tick of `now=103`.
fn tick_of(before: &str) -> u32 {
    for word in before.split_whitespace() {
        if let Some(tick) = word.strip_prefix("now=") {
            return tick.parse::<u32>().unwrap_or(0);
        }
    }
    0
}

/// `prescan | PROGRAM / BEFORE | AFTER`: the tags that aren't 0 after the prescan of the program.
pub fn say_prescan(alloc: Global, said: &mut Told, given: &str) -> Result<(), Refusal> {
    let (program, before) = given.split_once('/').ok_or(Refusal::Form)?;
    let mut image = image_of(alloc, before)?;
    prescan_text(alloc, program, &mut image)?;
    say_tags(alloc, said, &image)?;
    Ok(())
}

/// `scans | COUNT PROGRAM | STEPS`: how many steps COUNT scans of the program take, with every tag 0 at first.
pub fn say_scans(alloc: Global, said: &mut Told, given: &str) -> Result<(), Refusal> {
    let (count, program) = given.split_once(' ').ok_or(Refusal::Form)?;
    let count = count.parse::<u32>().ok().ok_or(Refusal::Form)?;
    let mut bench = Bench::load(alloc, program, "", flags_of(""))?;
    said.shown(&steps_of(&mut bench, count));
    Ok(())
}

/// The steps of `scans` scans, each to its end.
fn steps_of(bench: &mut Bench, scans: u32) -> u64 {
    let mut steps = 0u64;
    for _ in 0..scans {
        steps = steps.saturating_add(steps_of_one(bench));
        bench.restart();
    }
    steps
}

/// The most steps of a scan that are counted.
const MAX_STEPS: u64 = 100_000;

/// The steps of one scan to its end, or up to a bound.
fn steps_of_one(bench: &mut Bench) -> u64 {
    for step in 1..MAX_STEPS {
        if is_last(bench.step(scan_of(""))) {
            return step;
        }
    }
    MAX_STEPS
}
