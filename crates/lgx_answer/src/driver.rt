// The driver: it follows the plan of any command.
ghost use Rattle.std.specs.Prelude.{◌≡◌};
ghost use Rattle.lgx_answer.specs.Plan.{Say, Read, only};
ghost use Rattle.lgx_answer.specs.Endings.{ending_of, after_puts, after_read};
ghost use Rattle.lgx_answer.specs.Answered.{Answered, call_of};

use crate::file_command::{FileCommand, Step};
use crate::lines::Lines;
use crate::puts::{put_text, write_lines};
use crate::status::{Status, Verdict};
use lgx_io::{FileFault, Files, Sink, SinkFault};
use lgx_num::Memory;
use std::alloc::Global;

/// The status of a whole text, or of the fault that cut it off.
fn after_puts(done: Result<(), SinkFault>, whole: Verdict) -> Status
    ensures { ending_of result ≡ after_puts done whole }
{
    match done {
        Ok(()) => whole.status(),
        Err(SinkFault::Failed) => Status::WriteFault,
        Err(SinkFault::Memory) => Status::Memory,
    }
}

/// The status after a read that gave no bytes.
pub fn after_read(fault: FileFault) -> Status
    ensures { ending_of result ≡ after_read fault }
{
    match fault {
        FileFault::Failed => Status::ReadFault,
        FileFault::TooLong { .. } => Status::TooLong,
        FileFault::Memory => Status::Memory,
    }
}

/// Says a verdict with a text that is put in one piece. No file is read.
#[tactic(auto, using(crate::proofs::Follow::says_put))]
pub fn say<F: Files, K: Sink>(verdict: Verdict, text: &[u8], files: &F, sink: &mut K) -> Status
    ensures { Answered (Say verdict (only text.now))
        (call_of F.told F.failures files.now files.now K.held K.faults sink.old sink.new (ending_of result)) }
{
    after_puts(put_text(text, sink), verdict)
}

/// Says a verdict with a text that is put line by line. No file is read.
#[tactic(auto, using(crate::proofs::Follow::says_put))]
pub fn write<L: Lines, F: Files, K: Sink>(
    alloc: Global,
    verdict: Verdict,
    lines: L,
    files: &F,
    sink: &mut K,
) -> Status
    ensures { Answered (Say verdict (only (L.rest lines)))
        (call_of F.told F.failures files.now files.now K.held K.faults sink.old sink.new (ending_of result)) }
{
    after_puts(write_lines(alloc, lines, sink), verdict)
}

/// Reads the files of a command one after another, up to a verdict, and writes its text.
pub fn answer<W: FileCommand, F: Files, K: Sink>(
    alloc: Global,
    command: W,
    files: &mut F,
    sink: &mut K,
) -> Status
    ensures { Answered (Read (W.file command) (W.next command))
        (call_of F.told F.failures files.old files.new K.held K.faults sink.old sink.new (ending_of result)) }
{
    let bytes = match files.read(command.name()) {
        Ok(bytes) => bytes,
        Err(fault) => return after_read(fault),
    };
    match command.judge(alloc, bytes) {
        Ok(Step::Say(verdict, text)) => after_puts(put_text(text.as_slice(), sink), verdict),
        Ok(Step::Write(verdict, lines)) => after_puts(write_lines(alloc, lines, sink), verdict),
        Ok(Step::Read(next)) => answer(alloc, next, files, sink),
        Err(Memory) => Status::Memory,
    }
}
