// Rows of the log, and of watched places.
use crate::words::number_at;
use lgx_num::{Kind, Memory, Place};
use lgx_watch::{Line, Log, WatchIndex, WatchSet};
use std::alloc::Global;
use test_rows::Told;

/// Says how many of COUNT lines a log keeps, and how many it counts.
pub(crate) fn say_log(alloc: Global, given: &str, told: &mut Told) {
    match Log::new(alloc) {
        Ok(mut log) => say_full(&mut log, number_at(given, 0), told),
        Err(Memory) => told.lack(),
    }
}

fn say_full(log: &mut Log, count: u32, told: &mut Told) {
    for step in 0..count {
        if log.lost() < 1_000_000 {
            log.push(0, step, Line::Set { watch: 0, value: 1 });
        }
    }
    told.number(i64::from(log.lines()));
    told.word("kept,");
    told.shown(&log.lost());
    told.word("lost");
}

/// Says which of the watched places have a byte in one of these grains.
pub(crate) fn say_watches(alloc: Global, grains: &str, told: &mut Told) {
    match index(alloc) {
        Ok(index) => say_members(&in_grains(&index, grains), told),
        Err(Memory) => told.lack(),
    }
}

/// The same of words.
pub(crate) fn say_words(alloc: Global, words: &str, told: &mut Told) {
    match index(alloc) {
        Ok(index) => say_members(&in_words(&index, words), told),
        Err(Memory) => told.lack(),
    }
}

fn index(alloc: Global) -> Result<WatchIndex, Memory> {
    let places = [
        place(Kind::Bool, 0),
        place(Kind::Dint, 8 * 60),
        place(Kind::Sint, 8 * 64),
        place(Kind::Int, 8 * 60),
        place(Kind::Dint, 8 * 190),
    ];
    WatchIndex::new(alloc, &places)
}

fn place(kind: Kind, at: u32) -> Place {
    Place { kind, at }
}

fn in_grains(index: &WatchIndex, grains: &str) -> WatchSet {
    let mut members = WatchSet::new();
    for grain in grains.split_whitespace() {
        members.join(&index.of(number_at(grain, 0)));
    }
    members
}

fn in_words(index: &WatchIndex, words: &str) -> WatchSet {
    let mut members = WatchSet::new();
    for word in words.split_whitespace() {
        members.join(&index.of_word(number_at(word, 0)));
    }
    members
}

/// Says the members of a set below 5.
fn say_members(set: &WatchSet, told: &mut Told) {
    told.word("watches");
    for watch in 0..5 {
        if set.next(watch) == Some(watch) {
            told.number(i64::from(watch));
        }
    }
}
