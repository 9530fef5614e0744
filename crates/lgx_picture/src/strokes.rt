// The strokes of a lane.
ghost use Rattle.std.specs.Prelude.{◌≡◌, ◌+◌, ◌*◌, ◌++◌, nat_le, None, unwrap_or, OnOk};
ghost use Rattle.std.specs.Option.{option_or};
ghost use Rattle.lgx_picture.specs.declared.sizes.TheConstants.{LETTER};
ghost use Rattle.lgx_picture.specs.Marks.{edge_of, is_at, first_x, told, opening, beside, closing, strokes};

use crate::marks::Mark;
use crate::scale::Scale;
use crate::shapes::{push_escaped, push_upright, push_words};
use crate::sizes::LETTER;
use lgx_chart::{push, push_count};
use lgx_num::Memory;
use std::alloc::Global;

/// Whether another mark is in this place.
fn is_at(other: Option<u32>, x: u32) -> bool
    ensures { result ≡ is_at other x }
{
    match other {
        None => false,
        Some(other) => other == x,
    }
}

/// Where the first mark is.
pub(crate) fn first_x(marks: &[Mark]) -> Option<u32>
    ensures { result ≡ first_x marks.now }
{
    match marks {
        [] => None,
        [mark, ..] => Some(mark.x),
    }
}

/// Adds what a viewer shows of a mark.
pub(crate) fn push_told(text: &mut Vec<u8>, alloc: Global, mark: &Mark) -> Result<(), Memory>
    ensures { OnOk result (text.new.items ≡ text.old.items ++ told mark.now) }
{
    push_count(text, alloc, b"tick ", u64::from(mark.tick))?;
    push_count(text, alloc, b", step ", u64::from(mark.step))?;
    push(text, b": ")?;
    push_escaped(text, mark.label.as_slice())
}

/// Adds what is before a mark's words.
fn push_opening(text: &mut Vec<u8>, before: Option<u32>, x: u32) -> Result<(), Memory>
    ensures { OnOk result (text.new.items ≡ text.old.items ++ opening before x) }
{
    if is_at(before, x) {
        return push(text, b"\n");
    }
    push(text, b"<g><title>")
}

/// Whether a text beside a stroke ends before the next one.
fn has_room(x: u32, letters: usize, next: u64) -> bool
    ensures { result ≡ nat_le (x + LETTER * letters + 8) next }
{
    u128::from(x) + u128::from(LETTER) * letters as u128 + 8 <= u128::from(next)
}

/// Adds a text beside a place, if there is room.
pub(crate) fn push_beside(
    text: &mut Vec<u8>,
    alloc: Global,
    top: u32,
    next: u64,
    x: u32,
    said: &[u8],
) -> Result<(), Memory>
    ensures { OnOk result (text.new.items ≡ text.old.items ++ beside top next x said.now) }
{
    if !has_room(x, said.len(), next) {
        return Ok(());
    }
    let right = u64::from(x) + 4;
    let up = u64::from(top) + 16;
    push_words(text, alloc, b"label", right, up, said)
}

/// Where a text beside a place has to end.
pub(crate) fn next_place(scale: Scale, next: Option<u32>) -> u64
    ensures { result ≡ unwrap_or next (edge_of scale) }
{
    match next {
        None => scale.edge(),
        Some(x) => u64::from(x),
    }
}

/// The first of two places, if there is one.
fn first_place(next: Option<u32>, after: Option<u32>) -> Option<u32>
    ensures { result ≡ option_or next after }
{
    match next {
        None => after,
        Some(x) => Some(x),
    }
}

/// Adds what is after a mark's words.
fn push_closing(
    text: &mut Vec<u8>,
    alloc: Global,
    scale: Scale,
    top: u32,
    next: Option<u32>,
    mark: &Mark,
) -> Result<(), Memory>
    ensures { OnOk result (text.new.items ≡ text.old.items ++ closing scale top next mark.now) }
{
    if is_at(next, mark.x) {
        return Ok(());
    }
    let from = u64::from(top) + 8;
    let to = u64::from(top) + 40;
    push(text, b"</title>")?;
    push_upright(text, alloc, b"mark", u64::from(mark.x), from, to)?;
    push_beside(
        text,
        alloc,
        top,
        next_place(scale, next),
        mark.x,
        mark.label.as_slice(),
    )?;
    push(text, b"</g>\n")
}

/// Adds the strokes of marks, after which another mark may come.
pub(crate) fn push_strokes(
    text: &mut Vec<u8>,
    alloc: Global,
    scale: Scale,
    top: u32,
    after: Option<u32>,
    marks: &[Mark],
) -> Result<(), Memory>
    ensures { OnOk result (text.new.items ≡ text.old.items ++ strokes scale top after None marks.now) }
{
    let mut before = None;
    for (number, mark) in marks.iter().enumerate() {
        let next = first_place(first_x(&marks[number + 1..]), after);
        push_opening(text, before, mark.x)?;
        push_told(text, alloc, mark)?;
        push_closing(text, alloc, scale, top, next, mark)?;
        before = Some(mark.x);
    }
    Ok(())
}
