// The program `logix_wave`.
ghost use Rattle.std.specs.Prelude.{◌≡◌, map, string_bytes, option_map, IfOk};
ghost use Rattle.lgx_answer.specs.Answered.{call_of};
ghost use Rattle.lgx_answer.specs.Endings.{ending_of};
ghost use Rattle.lgx_answer.specs.Laws.{FollowsPlan};
ghost use Rattle.lgx_chart.specs.Vcd.{vcd_text};
ghost use Rattle.lgx_chart.specs.WavePlan.{wave_asked, wave_plan};

use crate::asked::{Asked, asked_of};
use crate::command::draw;
use crate::entry::Chart;
use crate::picture::Picture;
use crate::vcd::vcd_text;
use lgx_answer::Status;
use lgx_io::{Files, Sink};
use lgx_num::Memory;
use lgx_process::Planned;
use std::alloc::Global;

/// The line that says how to use the program.
pub const USAGE: &[u8] =
    b"usage: logix_wave [tick] [--from N] [--to N] [--bool NAME=VALUE].. [--number NAME=VALUE].. < REPORT\n";

/// A report as a wave file.
#[derive(Drop)]
struct WaveFile {
    asked: Asked,
}

impl Picture for WaveFile {
    ghost text = { λ w. vcd_text w.asked };

    fn to_text(&self, alloc: Global, chart: &Chart) -> Result<Vec<u8>, Memory> {
        vcd_text(alloc, &self.asked, chart)
    }
}

/// The wave file that these words ask for, if they ask for one.
fn wave_asked(alloc: Global, words: &[String]) -> Result<Option<WaveFile>, Memory>
    ensures { IfOk result (λ file. option_map vcd_text (wave_asked (map string_bytes words.now)) ≡ option_map (λ f. vcd_text f.asked) file) }
{
    let Some(asked) = asked_of(alloc, words)? else {
        return Ok(None);
    };
    if asked.view.width.is_some() {
        return Ok(None);
    }
    Ok(Some(WaveFile { asked }))
}

/// The program `logix_wave`: reads a report, writes it as a wave file by one put, and answers how the program ends. The report
/// is the one file, and its name is empty.
///
/// Time is the number of processor steps, or with the word `tick` the tick. Further words, by twos, give the first and the last
/// time that is shown, and watched places, each a BOOL or a number, with its value before the first line. A text that is no report
/// is answered `Project`, with one line, `report CODE line N`.
pub fn wave<F: Files, K: Sink>(
    alloc: Global,
    words: &[String],
    files: &mut F,
    sink: &mut K,
) -> Status
    ensures { FollowsPlan (wave_plan (map string_bytes words.now))
        (call_of F.told F.failures files.old files.new K.held K.faults sink.old sink.new (ending_of result)) }
{
    draw(alloc, USAGE, wave_asked(alloc, words), files, sink)
}

/// The program `logix_wave`, whose words have a plan.
pub struct WaveProgram;

impl Planned for WaveProgram {
    ghost use Rattle.lgx_chart.specs.WavePlan.{wave_plan};

    ghost plan = { λ words. wave_plan words };

    fn follow<F: Files, K: Sink>(
        alloc: Global,
        words: &[String],
        files: &mut F,
        sink: &mut K,
    ) -> Status {
        wave(alloc, words, files, sink)
    }
}
