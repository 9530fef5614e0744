// The process of `logix`, whose runtime has threads.
ghost use Rattle.lgx_io.specs.Gathered.{GatheredState};
ghost use Rattle.lgx_answer.specs.Process.{IsProcess};
ghost use Rattle.lgx_process.specs.Words.{WithWords};
ghost use Rattle.logix_run.specs.Words.{plan_of};

use lgx_answer::Status;
use lgx_io::{Files, Gathered};
use lgx_process::words_of;
use logix_run::{Gate, program};
use std::alloc::Global;
use std::env::Args;
use std::io::{self, Write};
use std::sync::Wait;
use std::thread::Threads;

/// All of the process but the call of this, over any arguments, any files, any output and any gate: with its words it does what
/// [`program`] does. Answers the number that the process ends with.
pub fn process_over<F: Files, W: Write + Drop, G: Gate + Sync, R: Threads + Wait + Sync>(
    rt: &R,
    alloc: Global,
    arguments: io::Result<Args>,
    files: &mut F,
    output: &mut Gathered<W>,
    gate: &G,
) -> u8
    ensures { WithWords GatheredState arguments
        (record { old = F.failures files.old; new = F.failures files.new })
        (record { old = output.old; new = output.new }) result
        (λ words. IsProcess (plan_of words) (F.told files.old)
        (record { old = F.failures files.old; new = F.failures files.new })
        output.old output.new result) }
{
    match words_of(alloc, arguments) {
        Ok(words) => program(rt, alloc, &words, files, output, gate),
        Err(_) => Status::Memory.number(),
    }
}
