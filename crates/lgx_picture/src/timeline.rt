// The program `logix_timeline`.
ghost use Rattle.std.specs.Prelude.{◌≡◌, map, string_bytes, option_map, IfOk};
ghost use Rattle.lgx_answer.specs.Answered.{call_of};
ghost use Rattle.lgx_answer.specs.Endings.{ending_of};
ghost use Rattle.lgx_answer.specs.Laws.{FollowsPlan};
ghost use Rattle.lgx_chart.specs.Asked.{asked_of};
ghost use Rattle.lgx_picture.specs.Svg.{svg_text};
ghost use Rattle.lgx_picture.specs.TimelinePlan.{timeline_plan};

use crate::svg::svg_text;
use lgx_answer::Status;
use lgx_chart::{Asked, Chart, Picture, asked_of, draw};
use lgx_io::{Files, Sink};
use lgx_num::Memory;
use lgx_process::Planned;
use std::alloc::Global;

/// The line that says how to use the program.
pub const USAGE: &[u8] =
    b"usage: logix_timeline [tick] [--width N] [--from N] [--to N] [--bool NAME=VALUE].. [--number NAME=VALUE].. < REPORT\n";

/// A report as a drawing.
#[derive(Drop)]
struct Drawing {
    asked: Asked,
}

impl Picture for Drawing {
    ghost text = { λ d. svg_text d.asked };

    fn to_text(&self, alloc: Global, chart: &Chart) -> Result<Vec<u8>, Memory> {
        svg_text(alloc, &self.asked, chart)
    }
}

/// The drawing that these words ask for, if they ask for one.
fn drawing_asked(alloc: Global, words: &[String]) -> Result<Option<Drawing>, Memory>
    ensures { IfOk result (λ drawing. option_map svg_text (asked_of (map string_bytes words.now)) ≡ option_map (λ d. svg_text d.asked) drawing) }
{
    let Some(asked) = asked_of(alloc, words)? else {
        return Ok(None);
    };
    Ok(Some(Drawing { asked }))
}

/// The program `logix_timeline`: reads a report, writes it as a drawing by one put, and answers how the program ends. The
/// report is the one file, and its name is empty.
///
/// Time is the number of processor steps, or with the word `tick` the tick. Further words, by twos, give the width of the drawing,
/// the first and the last time that is shown, and watched places, each a BOOL or a number, with its value before the first line. A
/// text that is no report is answered `Project`, with one line, `report CODE line N`.
pub fn draw_timeline<F: Files, K: Sink>(
    alloc: Global,
    words: &[String],
    files: &mut F,
    sink: &mut K,
) -> Status
    ensures { FollowsPlan (timeline_plan (map string_bytes words.now))
        (call_of F.told F.failures files.old files.new K.held K.faults sink.old sink.new (ending_of result)) }
{
    draw(alloc, USAGE, drawing_asked(alloc, words), files, sink)
}

/// The program `logix_timeline`, whose words have a plan.
pub struct TimelineProgram;

impl Planned for TimelineProgram {
    ghost use Rattle.lgx_picture.specs.TimelinePlan.{timeline_plan};

    ghost plan = { λ words. timeline_plan words };

    fn follow<F: Files, K: Sink>(
        alloc: Global,
        words: &[String],
        files: &mut F,
        sink: &mut K,
    ) -> Status {
        draw_timeline(alloc, words, files, sink)
    }
}
