// The program `logix_cover`, over any files and any sink.
ghost use Rattle.std.specs.Prelude.{◌≡◌, map, string_bytes};
ghost use Rattle.lgx_answer.specs.Endings.{ending_of};
ghost use Rattle.lgx_answer.specs.Answered.{Answered, call_of};
ghost use Rattle.lgx_answer.specs.Laws.{FollowsPlan};
ghost use Rattle.lgx_cover.specs.CoverPlan.{plan_of};

use crate::command::cover_journal;
use lgx_answer::{Status, Verdict, say};
use lgx_io::{Files, Sink};
use lgx_process::Planned;
use std::alloc::Global;

/// The line that says how to use the program.
pub const USAGE: &[u8] = b"usage: logix_cover P J\n";

/// Follows the plan of the words.
fn follow<F: Files, K: Sink>(alloc: Global, words: &[String], files: &mut F, sink: &mut K) -> Status
    ensures { Answered (plan_of (map string_bytes words.now))
        (call_of F.told F.failures files.old files.new K.held K.faults sink.old sink.new (ending_of result)) }
{
    match words {
        [project, journal] => {
            cover_journal(alloc, project.as_str(), journal.as_str(), files, sink)
        }
        _ => say(Verdict::Usage, USAGE, files, sink),
    }
}

/// The program `logix_cover P J`: runs the journal of the file `J` on the project of the file `P`, and writes how often each
/// instruction was executed, by one put. A line has six numbers: the program's, in the project's order; the version's, that the
/// scan began with; the routine's, in its program; how many pieces of flat code the routine has left from the instruction on; and
/// how many processor steps executed it with a true and with a false condition. Instructions that were never executed have no
/// line. Versions come in the order in which programs first began with them, routines by their numbers, and the instructions of a
/// routine in the order of its code. The last line is `end`. Files that are no project or no journal are refused as `logix`
/// refuses them; any other words are answered with the usage line.
#[tactic(auto, using(lgx_answer::proofs::Follows::follows_plan))]
pub fn cover<F: Files, K: Sink>(
    alloc: Global,
    words: &[String],
    files: &mut F,
    sink: &mut K,
) -> Status
    ensures { FollowsPlan (plan_of (map string_bytes words.now))
        (call_of F.told F.failures files.old files.new K.held K.faults sink.old sink.new (ending_of result)) }
{
    follow(alloc, words, files, sink)
}

/// The program `logix_cover`, whose words have a plan.
pub struct CoverProgram;

impl Planned for CoverProgram {
    ghost use Rattle.lgx_cover.specs.CoverPlan.{plan_of};

    ghost plan = { λ words. plan_of words };

    fn follow<F: Files, K: Sink>(
        alloc: Global,
        words: &[String],
        files: &mut F,
        sink: &mut K,
    ) -> Status {
        cover(alloc, words, files, sink)
    }
}
