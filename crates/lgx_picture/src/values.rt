// The values of a watched place as a step line.
ghost use Rattle.std.specs.Prelude.{◌≡◌, ◌++◌, codes, OnOk};
ghost use Rattle.std.specs.List.{flat_map};
ghost use Rattle.lgx_picture.specs.Shapes.{line_from, across_to};
ghost use Rattle.lgx_picture.specs.Marks.{right_of, start_level, lowest, highest, band_of, y_of, corner, step_line, start_text, value_lines, values};

use crate::lanes::{Lane, digits_of};
use crate::marks::{Mark, level_at};
use crate::scale::Scale;
use crate::shapes::{push_across_to, push_line_from};
use crate::sizes::{FLOOR, LEFT, RISE, ZERO};
use crate::strokes::{first_x, next_place, push_beside};
use lgx_chart::push_count;
use lgx_num::Memory;
use std::alloc::Global;

/// Where a lane begins, and the lowest and the highest level of its values.
#[derive(Clone, Copy)]
pub(crate) struct Band {
    pub top: u32,
    pub low: u32,
    pub high: u32,
}

/// The level of the value at the first time, or of 0.
fn start_level(start: Option<i32>) -> u32
    ensures { result ≡ start_level start }
{
    match start {
        Some(value) => level_at(value),
        None => ZERO,
    }
}

/// The lowest level of these and of 0.
fn lowest(start: Option<i32>, marks: &[Mark]) -> u32
    ensures { result ≡ lowest start marks.now }
{
    let mut level = ZERO.min(start_level(start));
    for mark in marks {
        level = level.min(mark.level);
    }
    level
}

/// The highest level of these and of 0.
fn highest(start: Option<i32>, marks: &[Mark]) -> u32
    ensures { result ≡ highest start marks.now }
{
    let mut level = ZERO.max(start_level(start));
    for mark in marks {
        level = level.max(mark.level);
    }
    level
}

impl Band {
    /// The band of a lane with these marks.
    fn of(top: u32, start: Option<i32>, marks: &[Mark]) -> Band
        ensures { result ≡ band_of top start marks.now }
    {
        Band {
            top,
            low: lowest(start, marks),
            high: highest(start, marks),
        }
    }

    /// Where a level is.
    fn y_of(self, level: u32) -> u64
        ensures { result ≡ y_of self level }
    {
        let above = u64::from(level.saturating_sub(self.low));
        let height = u64::from(self.high.saturating_sub(self.low).max(1));
        u64::from(self.top) + FLOOR.saturating_sub(RISE * above / height)
    }
}

/// Adds the corners at a value.
fn push_corner(text: &mut Vec<u8>, alloc: Global, band: Band, mark: &Mark) -> Result<(), Memory>
    ensures { OnOk result (text.new.items ≡ text.old.items ++ corner band mark.now) }
{
    push_count(text, alloc, b"H", u64::from(mark.x))?;
    push_count(text, alloc, b"V", band.y_of(mark.level))
}

/// Adds the corners at values.
fn push_corners(text: &mut Vec<u8>, alloc: Global, band: Band, marks: &[Mark]) -> Result<(), Memory>
    ensures { OnOk result (text.new.items ≡ text.old.items ++ flat_map (corner band) marks.now) }
{
    for mark in marks {
        push_corner(text, alloc, band, mark)?;
    }
    Ok(())
}

/// Adds a step line that begins at a place and a level, over these marks.
fn push_steps(
    text: &mut Vec<u8>,
    alloc: Global,
    scale: Scale,
    band: Band,
    x: u64,
    level: u32,
    marks: &[Mark],
) -> Result<(), Memory>
    ensures { OnOk result (text.new.items ≡ text.old.items ++ line_from (codes "value") x (y_of band level) ++ flat_map (corner band) marks.now ++ across_to (right_of scale)) }
{
    push_line_from(text, alloc, b"value", x, band.y_of(level))?;
    push_corners(text, alloc, band, marks)?;
    push_across_to(text, alloc, scale.right())
}

/// Adds a step line, if there is a value.
fn push_step_line(
    text: &mut Vec<u8>,
    alloc: Global,
    scale: Scale,
    band: Band,
    start: Option<i32>,
    marks: &[Mark],
) -> Result<(), Memory>
    ensures { OnOk result (text.new.items ≡ text.old.items ++ step_line scale band start marks.now) }
{
    if let Some(value) = start {
        return push_steps(text, alloc, scale, band, LEFT, level_at(value), marks);
    }
    match marks {
        [] => Ok(()),
        [first, others @ ..] => push_steps(
            text,
            alloc,
            scale,
            band,
            u64::from(first.x),
            first.level,
            others,
        ),
    }
}

/// Adds the value at the first time, if it is known and there is room.
fn push_start_text(
    text: &mut Vec<u8>,
    alloc: Global,
    scale: Scale,
    top: u32,
    start: Option<i32>,
    marks: &[Mark],
) -> Result<(), Memory>
    ensures { OnOk result (text.new.items ≡ text.old.items ++ start_text scale top start marks.now) }
{
    let Some(value) = start else {
        return Ok(());
    };
    let digits = digits_of(alloc, value)?;
    let next = next_place(scale, first_x(marks));
    push_beside(text, alloc, top, next, LEFT as u32, digits.as_slice())
}

/// Adds the values of a watched place.
fn push_value_lines(
    text: &mut Vec<u8>,
    alloc: Global,
    scale: Scale,
    top: u32,
    start: Option<i32>,
    marks: &[Mark],
) -> Result<(), Memory>
    ensures { OnOk result (text.new.items ≡ text.old.items ++ value_lines scale top start marks.now) }
{
    push_step_line(
        text,
        alloc,
        scale,
        Band::of(top, start, marks),
        start,
        marks,
    )?;
    push_start_text(text, alloc, scale, top, start, marks)
}

/// Adds the values of a lane, if it is that of a watched place.
pub(crate) fn push_values(
    text: &mut Vec<u8>,
    alloc: Global,
    scale: Scale,
    lane: &Lane,
    top: u32,
    marks: &[Mark],
) -> Result<(), Memory>
    ensures { OnOk result (text.new.items ≡ text.old.items ++ values scale lane.now top marks.now) }
{
    match lane {
        Lane::Task(_) | Lane::Faults | Lane::Replies => Ok(()),
        Lane::Watch(place) => push_value_lines(text, alloc, scale, top, place.start, marks),
    }
}
