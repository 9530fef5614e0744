// Begins that are close together.
ghost use Rattle.std.specs.Prelude.{◌≡◌, ◌<◌, ◌≤◌, ◌++◌, length, OnOk, IfOk};
ghost use Rattle.lgx_picture.specs.Marks.{told, last_of, count_text, bar_title, bar_of, run_text, run_texts, runs_of, marks_text};
ghost use Rattle.lgx_picture.specs.Runs.{close_after, first_run};

use crate::lanes::Lane;
use crate::marks::Mark;
use crate::scale::Scale;
use crate::shapes::push_bar;
use crate::sizes::GAP;
use crate::strokes::{first_x, next_place, push_beside, push_strokes, push_told};
use lgx_chart::{push, push_count};
use lgx_num::Memory;
use std::alloc::Global;

/// How many of these marks are close to the one before, one after another; the first to a place.
fn close_after(place: u32, marks: &[Mark]) -> usize
    ensures value { result ≡ close_after place marks.now }
    ensures few { result ≤ length marks.now }
{
    let mut before = place;
    for (number, mark) in marks.iter().enumerate() {
        if GAP < mark.x.saturating_sub(before) {
            return number;
        }
        before = mark.x;
    }
    marks.len()
}

/// The last of some marks.
fn last_of<'a>(first: &'a Mark, others: &'a [Mark]) -> &'a Mark
    ensures { result.now ≡ last_of first.now others.now }
{
    let mut last = first;
    for mark in others {
        last = mark;
    }
    last
}

/// Writes how often the row above begins: `37 begins`.
fn push_count_text(text: &mut Vec<u8>, alloc: Global, count: usize) -> Result<(), Memory>
    ensures { OnOk result (text.new.items ≡ text.old.items ++ count_text count) }
{
    push_count(text, alloc, b"", count as u64)?;
    push(text, b" begins")
}

/// The text of that count by itself, as its width is asked for before it is written.
fn count_text(alloc: Global, count: usize) -> Result<Vec<u8>, Memory>
    ensures { IfOk result (λ text. text.items ≡ count_text count) }
{
    let mut text = Vec::new(alloc);
    push_count_text(&mut text, alloc, count)?;
    Ok(text)
}

/// Adds a mark that a bar begins or ends with, after a word.
fn push_end(text: &mut Vec<u8>, alloc: Global, word: &[u8], mark: &Mark) -> Result<(), Memory>
    ensures { OnOk result (text.new.items ≡ text.old.items ++ (word.now ++ told mark.now)) }
{
    push(text, word)?;
    push_told(text, alloc, mark)
}

/// Adds what a viewer shows of a bar: how many, the first and the last.
#[tactic(auto, unfolding(crate::specs::Marks::bar_title))]
fn push_bar_title(
    text: &mut Vec<u8>,
    alloc: Global,
    said: &[u8],
    first: &Mark,
    last: &Mark,
) -> Result<(), Memory>
    ensures { OnOk result (text.new.items ≡ text.old.items ++ bar_title said.now first.now last.now) }
{
    push(text, b"<g><title>")?;
    push(text, said)?;
    push_end(text, alloc, b"\nfrom ", first)?;
    push_end(text, alloc, b"\nto ", last)?;
    push(text, b"</title>")
}

/// Adds the bar of a run of begins, with their count.
fn push_bar_of(
    text: &mut Vec<u8>,
    alloc: Global,
    scale: Scale,
    top: u32,
    next: Option<u32>,
    first: &Mark,
    last: &Mark,
    count: usize,
) -> Result<(), Memory>
    ensures { OnOk result (text.new.items ≡ text.old.items ++ bar_of scale top next first.now last.now count) }
{
    let said = count_text(alloc, count)?;
    push_bar_title(text, alloc, &said, first, last)?;
    push_bar(text, alloc, first.x, last.x, u64::from(top) + 24)?;
    push_beside(text, alloc, top, next_place(scale, next), first.x, &said)?;
    push(text, b"</g>\n")
}

/// Adds a run: a bar if it has more than a few marks, and else their strokes.
fn push_run(
    text: &mut Vec<u8>,
    alloc: Global,
    scale: Scale,
    top: u32,
    next: Option<u32>,
    run: &[Mark],
) -> Result<(), Memory>
    ensures { OnOk result (text.new.items ≡ text.old.items ++ run_text scale top next run.now) }
{
    match run {
        [] => Ok(()),
        [first, others @ ..] => {
            if (GAP as usize) < run.len() {
                return push_bar_of(
                    text,
                    alloc,
                    scale,
                    top,
                    next,
                    first,
                    last_of(first, others),
                    run.len(),
                );
            }
            push_strokes(text, alloc, scale, top, next, run)
        }
    }
}

/// How many of these marks the first run has.
fn first_run(marks: &[Mark]) -> usize
    ensures value { result ≡ first_run marks.now }
    ensures few { result ≤ length marks.now }
    ensures some { 0 < length marks.now → 0 < result }
{
    match marks {
        [] => 0,
        [first, others @ ..] => close_after(first.x, others) + 1,
    }
}

/// Adds the runs of these marks.
fn push_runs(
    text: &mut Vec<u8>,
    alloc: Global,
    scale: Scale,
    top: u32,
    marks: &[Mark],
) -> Result<(), Memory>
    ensures { OnOk result (text.new.items ≡ text.old.items ++ run_texts scale top (runs_of marks.now)) }
{
    let mut rest = marks;
    while !rest.is_empty() {
        let count = first_run(rest);
        let (run, after) = rest.split_at(count);
        push_run(text, alloc, scale, top, first_x(after), run)?;
        rest = after;
    }
    Ok(())
}

/// Adds the marks of a lane.
pub(crate) fn push_marks(
    text: &mut Vec<u8>,
    alloc: Global,
    scale: Scale,
    lane: &Lane,
    top: u32,
    marks: &[Mark],
) -> Result<(), Memory>
    ensures { OnOk result (text.new.items ≡ text.old.items ++ marks_text scale lane.now top marks.now) }
{
    match lane {
        Lane::Task(_) => push_runs(text, alloc, scale, top, marks),
        Lane::Faults | Lane::Replies | Lane::Watch(_) => {
            push_strokes(text, alloc, scale, top, None, marks)
        }
    }
}
