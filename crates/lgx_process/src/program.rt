// A program whose words have a plan, as a process.
ghost use Rattle.std.specs.Prelude.{[], List, ℕ, map, string_bytes};
ghost use Rattle.lgx_io.specs.Gathered.{GatheredState};
ghost use Rattle.lgx_answer.specs.Endings.{ending_of};
ghost use Rattle.lgx_answer.specs.Plan.{Plan};
ghost use Rattle.lgx_answer.specs.Answered.{Failures, call_of};
ghost use Rattle.lgx_answer.specs.Laws.{FollowsPlan};
ghost use Rattle.lgx_answer.specs.Process.{IsProcess};
ghost use Rattle.lgx_process.specs.Words.{WithWords};

use crate::words::words_of;
use lgx_answer::{Status, exit_number};
use lgx_io::{Files, Gathered, Input, Sink};
use std::alloc::Global;
use std::env::Args;
use std::io::{self, Read, Write};

/// A program that follows the plan of its words.
pub trait Planned {
    /// The plan of these words.
    ghost plan: { List (List ℕ) → Plan };

    /// Follows the plan of the words, and answers how the program ends.
    fn follow<F: Files, K: Sink>(
        alloc: Global,
        words: &[String],
        files: &mut F,
        sink: &mut K,
    ) -> Status
        ensures { FollowsPlan (plan (map string_bytes words.now))
            (call_of F.told F.failures files.old files.new K.held K.faults sink.old sink.new (ending_of result)) };
}

/// Follows the plan of the words, and then writes what still waits to be written. Answers the number that the process ends with.
fn with_words<P: Planned, F: Files, W: Write + Drop>(
    alloc: Global,
    words: &[String],
    files: &mut F,
    output: &mut Gathered<W>,
) -> u8
    ensures { IsProcess (P.plan (map string_bytes words.now)) (F.told files.old)
        (record { old = F.failures files.old; new = F.failures files.new })
        output.old output.new result }
{
    let status = P::follow(alloc, words, files, output);
    exit_number(status, output)
}

/// All of the process but the call of this, over any arguments, any files and any output: it follows the plan of its words.
/// Answers the number that the process ends with.
pub fn process_over<P: Planned, F: Files, W: Write + Drop>(
    alloc: Global,
    arguments: io::Result<Args>,
    files: &mut F,
    output: &mut Gathered<W>,
) -> u8
    ensures { WithWords GatheredState arguments
        (record { old = F.failures files.old; new = F.failures files.new })
        (record { old = output.old; new = output.new }) result
        (λ words. IsProcess (P.plan words) (F.told files.old)
        (record { old = F.failures files.old; new = F.failures files.new })
        output.old output.new result) }
{
    match words_of(alloc, arguments) {
        Ok(words) => with_words::<P, F, W>(alloc, &words, files, output),
        Err(_) => Status::Memory.number(),
    }
}

/// The same over any reader, whose bytes are the file of every name.
pub fn process_over_input<P: Planned, R: Read + Drop, W: Write + Drop>(
    alloc: Global,
    arguments: io::Result<Args>,
    input: R,
    output: &mut Gathered<W>,
) -> u8
    ensures { (noted : Failures) × WithWords GatheredState arguments
        (record { old = []; new = noted }) (record { old = output.old; new = output.new }) result
        (λ words. IsProcess (P.plan words) (λ name. R.remaining input)
        (record { old = []; new = noted }) output.old output.new result) }
{
    let mut files = Input::new(input, alloc);
    process_over::<P, Input<R>, W>(alloc, arguments, &mut files, output)
}
