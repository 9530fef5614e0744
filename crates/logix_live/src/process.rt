// The process of `logix_live`.
ghost use Rattle.std.specs.Prelude.{◌≡◌, []};
ghost use Rattle.lgx_live.specs.Console.{ConsoleSeen};
ghost use Rattle.lgx_process.specs.Words.{WithWords};
ghost use Rattle.cmd_live.specs.LiveProcess.{IsLiveProcess};

use cmd_live::program;
use lgx_answer::Status;
use lgx_io::Files;
use lgx_live::Console;
use lgx_process::words_of;
use std::alloc::Global;
use std::env::Args;
use std::io;

/// All of the process but the call of this, over any arguments, any files and any console: with its words it does what [`program`]
/// does. Answers the number that the process ends with.
///
/// Nothing waits on the console yet.
pub fn process_over<F: Files, C: Console>(
    alloc: Global,
    arguments: io::Result<Args>,
    files: &mut F,
    console: &mut C,
) -> u8
    requires { (C.seen console.old).waiting ≡ [] }
    ensures { WithWords ConsoleSeen arguments
        (record { old = F.failures files.old; new = F.failures files.new })
        (record { old = C.seen console.old; new = C.seen console.new }) result
        (λ words. IsLiveProcess words (F.told files.old)
        (record { old = F.failures files.old; new = F.failures files.new })
        (C.seen console.old) (C.seen console.new) result) }
{
    match words_of(alloc, arguments) {
        Ok(words) => program(alloc, &words, files, console),
        Err(_) => Status::Memory.number(),
    }
}
