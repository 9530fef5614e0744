// The marks of a lane.
ghost use Rattle.std.specs.Prelude.{◌≡◌, ◌++◌, IfOk};
ghost use Rattle.lgx_picture.specs.Marks.{level_at, level_of, mark_of, marks_of};

use crate::lanes::Lane;
use crate::scale::Scale;
use lgx_chart::{Entry, Note, time_of};
use lgx_num::{Items, Memory};
use std::alloc::Global;

/// A mark of a lane: where it is, its tick and number of steps, the height of its value, counted from the least
/// DINT, and its text.
#[derive(Drop)]
pub(crate) struct Mark {
    pub x: u32,
    pub tick: u32,
    pub step: u32,
    pub level: u32,
    pub label: Items<u8>,
}

/// How high a value is.
pub(crate) fn level_at(value: i32) -> u32
    ensures { result ≡ level_at value }
{
    value.abs_diff(i32::MIN)
}

/// How high a line's value is; 0 if it has none.
fn level_of(note: &Note) -> u32
    ensures { result ≡ level_of note.now }
{
    match note {
        Note::Set { value, .. } => level_at(*value),
        Note::Begin { .. } | Note::Reply(_) | Note::Fault(_) => 0,
    }
}

/// The mark of a line, if it is shown and says something in the lane.
fn mark_of(alloc: Global, scale: Scale, lane: &Lane, entry: &Entry) -> Result<Option<Mark>, Memory>
    ensures { IfOk result (λ mark. mark ≡ mark_of scale lane.now entry.now) }
{
    if !scale.view.is_shown(entry) {
        return Ok(None);
    }
    let Some(label) = lane.said_in(alloc, &entry.note)? else {
        return Ok(None);
    };
    Ok(Some(Mark {
        x: scale.x_of(time_of(scale.view.clock, entry.tick, entry.step)),
        tick: entry.tick,
        step: entry.step,
        level: level_of(&entry.note),
        label,
    }))
}

/// The marks of a lane.
pub(crate) fn marks_of(
    alloc: Global,
    scale: Scale,
    lane: &Lane,
    entries: &[Entry],
) -> Result<Vec<Mark>, Memory>
    ensures { IfOk result (λ marks. marks.items ≡ marks_of scale lane.now entries.now) }
{
    let mut marks = Vec::new(alloc);
    for entry in entries {
        if let Some(mark) = mark_of(alloc, scale, lane, entry)? {
            marks.push(mark)?;
        }
    }
    Ok(marks)
}
