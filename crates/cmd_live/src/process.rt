// The process: the call, and what is left to do after it.
ghost use Rattle.std.specs.Prelude.{◌≡◌, [], map, string_bytes};
ghost use Rattle.cmd_live.specs.LiveProcess.{Leaves, IsLiveProcess};

use crate::open::live;
use lgx_answer::Status;
use lgx_io::{Files, SinkFault};
use lgx_live::Console;
use std::alloc::Global;

/// Writes what still waits to be written, and answers the number that the process ends with: that of the status, or that of a write
/// fault if what waited couldn't be written.
fn leave<C: Console>(status: Status, console: &mut C) -> u8
    ensures { Leaves status (C.seen console.old) (C.seen console.new) result }
{
    match console.flush() {
        Ok(()) => status.number(),
        Err(SinkFault::Failed) => Status::WriteFault.number(),
        Err(SinkFault::Memory) => unreachable!(),
    }
}

/// All that the process does with its words: what [`live`] does, and then what still waits to be written is written. Answers the
/// number that the process ends with.
pub fn program<F: Files, C: Console>(
    alloc: Global,
    words: &[String],
    files: &mut F,
    console: &mut C,
) -> u8
    requires { (C.seen console.old).waiting ≡ [] }
    ensures { IsLiveProcess (map string_bytes words.now) (F.told files.old)
        (record { old = F.failures files.old; new = F.failures files.new })
        (C.seen console.old) (C.seen console.new) result }
{
    let status = live(alloc, words, files, console);
    leave(status, console)
}
