// The process of `logix_explore`.
ghost use Rattle.std.specs.Prelude.{◌≡◌, ℕ, List, [], ◌∷◌, Some};
ghost use Rattle.lgx_io.specs.Gathered.{GatheredState};
ghost use Rattle.lgx_answer.specs.declared.status.Verdict.{Verdict as Verdicts};
ghost use Rattle.lgx_answer.specs.Process.{IsProcess};
ghost use Rattle.lgx_process.specs.Words.{WithWords};
ghost use Rattle.cmd_explore.specs.ExplorePlan.{plan_of};
ghost use Rattle.cmd_explore.specs.Explored.{said_by, EndsExplored};

use cmd_explore::program;
use lgx_answer::Status;
use lgx_explore::Progress;
use lgx_io::{Files, Gathered};
use lgx_process::words_of;
use std::alloc::Global;
use std::env::Args;
use std::io::{self, Write};

/// All of the process but the call of this, over any arguments, any files and any output: with its words it does what [`program`]
/// does. Answers the number that the process ends with.
pub fn process_over<P: Progress + Drop, F: Files, W: Write + Drop>(
    alloc: Global,
    arguments: io::Result<Args>,
    progress: P,
    files: &mut F,
    output: &mut Gathered<W>,
) -> u8
    ensures { WithWords GatheredState arguments
        (record { old = F.failures files.old; new = F.failures files.new })
        (record { old = output.old; new = output.new }) result
        (λ words. IsProcess (plan_of words) (F.told files.old)
        (record { old = F.failures files.old; new = F.failures files.new })
        output.old output.new result
        × ((p s q : List ℕ) (said : Verdicts) → words ≡ p ∷ s ∷ q ∷ [] → said_by result ≡ Some said
        → EndsExplored (F.told files.old) output.old output.new p s q said)) }
{
    match words_of(alloc, arguments) {
        Ok(words) => program(alloc, &words, progress, files, output),
        Err(_) => Status::Memory.number(),
    }
}
