// Writes a report as a drawing.
ghost use Rattle.std.specs.Prelude.{◌≡◌, ◌+◌, ◌*◌, ◌++◌, ◌^◌, ◌<◌, ◌≤◌, length, codes, find, OnOk, IfOk};
ghost use Rattle.lgx_picture.specs.declared.sizes.TheConstants.{MAX_LANES};
ghost use Rattle.lgx_chart.specs.Places.{places_of};
ghost use Rattle.lgx_picture.specs.Shapes.{words};
ghost use Rattle.lgx_picture.specs.Lanes.{lanes_of};
ghost use Rattle.lgx_picture.specs.Svg.{lane_title, lane_head, lane_text, top_of, lanes_from, reaches, spacing, grid_line, first_multiple, grid_line_after, grid_by, grid, unit_of, view_box, head, hint_within, ending, front, drawing_of, svg_text};

use crate::lanes::{Lane, lanes_of, short};
use crate::looks::{height_text, hint, legend, open_text, style, view_text};
use crate::marks::{Mark, marks_of};
use crate::runs::push_marks;
use crate::scale::Scale;
use crate::shapes::{push_escaped, push_ground_line, push_upright, push_words};
use crate::sizes::{GRID_LINES, HINT_WIDTH, LANE, MAX_LANES, MAX_SPACING, SPACINGS, TOP};
use crate::values::push_values;
use lgx_chart::{Asked, Chart, Clock, End, Entry, places_of, push, push_count};
use lgx_num::Memory;
use std::alloc::Global;

/// Adds what a viewer shows of a lane.
fn push_lane_title(text: &mut Vec<u8>, lane: &Lane) -> Result<(), Memory>
    ensures { OnOk result (text.new.items ≡ text.old.items ++ lane_title lane.now) }
{
    push(text, b"<g class=\"")?;
    push(text, lane.class())?;
    push(text, b"\"><title>")?;
    push_escaped(text, lane.name())?;
    push(text, b"</title>\n")
}

/// Adds a lane's name and its line.
fn push_lane_head(
    text: &mut Vec<u8>,
    alloc: Global,
    scale: Scale,
    lane: &Lane,
    top: u32,
) -> Result<(), Memory>
    ensures { OnOk result (text.new.items ≡ text.old.items ++ lane_head scale lane.now top) }
{
    let name = short(alloc, lane.name())?;
    push_lane_title(text, lane)?;
    push_words(text, alloc, b"name", 10, u64::from(top) + 36, &name)?;
    push_ground_line(text, alloc, scale.right(), u64::from(top) + 40)
}

/// Adds a lane: its name, and its marks from the height `top` down.
fn push_lane(
    text: &mut Vec<u8>,
    alloc: Global,
    scale: Scale,
    lane: &Lane,
    top: u32,
    marks: &[Mark],
) -> Result<(), Memory>
    ensures { OnOk result (text.new.items ≡ text.old.items ++ lane_text scale lane.now top marks.now) }
{
    push_lane_head(text, alloc, scale, lane, top)?;
    push_values(text, alloc, scale, lane, top, marks)?;
    push_marks(text, alloc, scale, lane, top, marks)?;
    push(text, b"</g>\n")
}

/// Where a lane begins, or the first place below the last.
fn top_of(number: usize) -> u32
    requires { number ≤ MAX_LANES }
    ensures { result ≡ top_of number }
{
    (TOP + LANE * number as u64) as u32
}

/// Adds all lanes, one below the other.
fn push_lanes(
    text: &mut Vec<u8>,
    alloc: Global,
    scale: Scale,
    entries: &[Entry],
    lanes: &[Lane],
) -> Result<(), Memory>
    requires { length lanes.now ≤ MAX_LANES }
    ensures { OnOk result (text.new.items ≡ text.old.items ++ lanes_from scale entries.now 0 lanes.now) }
{
    for (number, lane) in lanes.iter().enumerate() {
        let marks = marks_of(alloc, scale, lane, entries)?;
        push_lane(text, alloc, scale, lane, top_of(number), &marks)?;
    }
    Ok(())
}

/// Whether ten of a time reach the end.
#[tactic(auto, unfolding(crate::specs::Svg::reaches))]
fn reaches(end: u32, spacing: u32) -> bool
    ensures { result ≡ reaches end spacing }
{
    u64::from(end) <= 10 * u64::from(spacing)
}

/// The first of these times of which ten reach the end.
fn first_reaching(end: u32, spacings: &[u32]) -> Option<u32>
    ensures { result ≡ find (reaches end) spacings.now }
{
    for spacing in spacings {
        if reaches(end, *spacing) {
            return Some(*spacing);
        }
    }
    None
}

/// How far the lines down a drawing are apart.
#[tactic(auto, unfolding(crate::specs::Svg::spacing))]
fn spacing(end: u32) -> u32
    ensures { result ≡ spacing end }
{
    match first_reaching(end, &SPACINGS) {
        Some(spacing) => spacing,
        None => MAX_SPACING,
    }
}

/// Adds a line down at a time, and the time below it, unless the end comes before.
fn push_grid_line(
    text: &mut Vec<u8>,
    alloc: Global,
    scale: Scale,
    bottom: u32,
    time: u64,
) -> Result<(), Memory>
    ensures { OnOk result (text.new.items ≡ text.old.items ++ grid_line scale bottom time) }
{
    if u64::from(scale.end) < time {
        return Ok(());
    }
    let x = u64::from(scale.x_of(time as u32));
    let below = u64::from(bottom);
    let digits = time.to_string(alloc)?;
    push_upright(text, alloc, b"grid", x, TOP - 22, below + 6)?;
    push_words(text, alloc, b"time", x, below + 22, digits.as_bytes())
}

/// The first multiple of a time that isn't before another.
#[tactic(auto, using(crate::proofs::Places::small_multiple), unfolding(crate::specs::Svg::first_multiple))]
fn first_multiple(time: u32, from: u32) -> u64
    ensures value { result ≡ first_multiple time from }
    ensures near { result < 2 ^ 34 }
{
    let reached = (u64::from(from) + u64::from(time)).saturating_sub(1);
    reached / u64::from(time.max(1)) * u64::from(time)
}

/// Adds the lines down a drawing, at the multiples of a time.
#[tactic(auto, using(crate::proofs::Places::small_product), unfolding(crate::specs::Svg::grid_by))]
fn push_grid_by(
    text: &mut Vec<u8>,
    alloc: Global,
    scale: Scale,
    bottom: u32,
    time: u32,
) -> Result<(), Memory>
    ensures { OnOk result (text.new.items ≡ text.old.items ++ grid_by scale bottom time) }
{
    let first = first_multiple(time, scale.view.from);
    let spacing = u64::from(time);
    for number in 0..GRID_LINES {
        push_grid_line(text, alloc, scale, bottom, first + number * spacing)?;
    }
    Ok(())
}

/// Adds the lines down a drawing.
fn push_grid(text: &mut Vec<u8>, alloc: Global, scale: Scale, bottom: u32) -> Result<(), Memory>
    ensures { OnOk result (text.new.items ≡ text.old.items ++ grid scale bottom) }
{
    let time = spacing(scale.end.saturating_sub(scale.view.from));
    push_grid_by(text, alloc, scale, bottom, time)
}

/// What time is counted in.
fn unit_of(clock: Clock) -> &'static [u8]
    ensures { result.now ≡ unit_of clock }
{
    match clock {
        Clock::Step => b"processor steps",
        Clock::Tick => b"ticks (ms)",
    }
}

/// Adds the corners of what is seen.
#[tactic(auto, unfolding(crate::specs::Svg::view_box))]
fn push_view_box(text: &mut Vec<u8>, alloc: Global, edge: u64, height: u64) -> Result<(), Memory>
    ensures { OnOk result (text.new.items ≡ text.old.items ++ view_box edge height) }
{
    push_count(text, alloc, view_text(), edge)?;
    push_count(text, alloc, b" ", height)?;
    push(text, b"\">\n")
}

/// Adds the head of a drawing of this width and height.
#[tactic(auto, unfolding(crate::specs::Svg::head))]
fn push_head(text: &mut Vec<u8>, alloc: Global, edge: u64, height: u64) -> Result<(), Memory>
    ensures { OnOk result (text.new.items ≡ text.old.items ++ head edge height) }
{
    push_count(text, alloc, open_text(), edge)?;
    push_count(text, alloc, height_text(), height)?;
    push_view_box(text, alloc, edge, height)?;
    push(text, style())
}

/// How marks in one place are written, where the drawing has room for it.
fn hint_within(edge: u64) -> &'static [u8]
    ensures { result.now ≡ hint_within edge }
{
    if HINT_WIDTH <= edge { hint() } else { b"\n" }
}

/// Adds how a report ends.
#[tactic(auto, unfolding(crate::specs::Svg::ending))]
fn push_ending(text: &mut Vec<u8>, alloc: Global, end: &End) -> Result<(), Memory>
    ensures { OnOk result (text.new.items ≡ text.old.items ++ ending end.now) }
{
    push(text, b"ends in ")?;
    push(text, end.mode.as_slice())?;
    push_count(text, alloc, b" at tick ", u64::from(end.tick))?;
    push_count(text, alloc, b", step ", u64::from(end.step))?;
    push_count(text, alloc, b"; lines lost: ", u64::from(end.lost))
}

/// Adds the words that say how a report ends.
fn push_head_words(text: &mut Vec<u8>, alloc: Global, end: &End) -> Result<(), Memory>
    ensures { OnOk result (text.new.items ≡ text.old.items ++ words (codes "head") 10 22 (ending end.now)) }
{
    let mut ending = Vec::new(alloc);
    push_ending(&mut ending, alloc, end)?;
    push_words(text, alloc, b"head", 10, 22, &ending)
}

/// Adds what is before the lanes.
fn push_front(
    text: &mut Vec<u8>,
    alloc: Global,
    scale: Scale,
    end: &End,
    bottom: u32,
) -> Result<(), Memory>
    ensures { OnOk result (text.new.items ≡ text.old.items ++ front scale end.now bottom) }
{
    let below = u64::from(bottom) + 22;
    push_head(text, alloc, scale.edge(), u64::from(bottom) + 30)?;
    push_head_words(text, alloc, end)?;
    push(text, legend())?;
    push(text, hint_within(scale.edge()))?;
    push_grid(text, alloc, scale, bottom)?;
    push_words(text, alloc, b"unit", 10, below, unit_of(scale.view.clock))
}

/// Adds a report as a drawing with these lanes.
fn push_drawing(
    text: &mut Vec<u8>,
    alloc: Global,
    scale: Scale,
    chart: &Chart,
    lanes: &[Lane],
) -> Result<(), Memory>
    requires { length lanes.now ≤ MAX_LANES }
    ensures { OnOk result (text.new.items ≡ text.old.items ++ drawing_of scale chart.now lanes.now) }
{
    push_front(text, alloc, scale, &chart.end, top_of(lanes.len()))?;
    push_lanes(text, alloc, scale, chart.entries.as_slice(), lanes)?;
    push(text, b"</svg>\n")
}

/// The lanes of a drawing.
fn lanes_asked(alloc: Global, asked: &Asked, chart: &Chart) -> Result<Vec<Lane>, Memory>
    ensures lanes { IfOk result (λ lanes. lanes.items ≡ lanes_of chart.now.tasks (places_of asked.now chart.now)) }
    ensures few { IfOk result (λ lanes. length lanes.items ≤ MAX_LANES) }
{
    let places = places_of(alloc, asked, chart)?;
    lanes_of(alloc, chart.tasks.as_slice(), &places)
}

/// A report as a drawing: a lane for each task that began, the faults, the replies and each watched place, with time from left to
/// right. Marks that follow one another in one place share a stroke, and many begins that are close together are a bar with
/// their count, so of a report that was read a lane has at most as many as the drawing has places across. Out of memory is the
/// one fault.
pub fn svg_text(alloc: Global, asked: &Asked, chart: &Chart) -> Result<Vec<u8>, Memory>
    ensures { IfOk result (λ text. text.items ≡ svg_text asked.now chart.now) }
{
    let lanes = lanes_asked(alloc, asked, chart)?;
    let mut text = Vec::new(alloc);
    push_drawing(
        &mut text,
        alloc,
        Scale::of(asked.view, &chart.end),
        chart,
        &lanes,
    )?;
    Ok(text)
}
