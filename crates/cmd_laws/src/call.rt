// The program `logix_laws`, over any files and any sink.
ghost use Rattle.std.specs.Prelude.{◌≡◌, map, string_bytes};
ghost use Rattle.lgx_answer.specs.Endings.{ending_of};
ghost use Rattle.lgx_answer.specs.Answered.{Answered, call_of};
ghost use Rattle.lgx_answer.specs.Laws.{FollowsPlan};
ghost use Rattle.cmd_laws.specs.LawsPlan.{plan_of};

use crate::command::judge_trace;
use lgx_answer::{Status, Verdict, say};
use lgx_io::{Files, Sink};
use lgx_process::Planned;
use std::alloc::Global;

/// The line that says how to use the program.
pub const USAGE: &[u8] = b"usage: logix_laws P T\n";

/// Follows the plan of the words.
fn follow<F: Files, K: Sink>(alloc: Global, words: &[String], files: &mut F, sink: &mut K) -> Status
    ensures { Answered (plan_of (map string_bytes words.now))
        (call_of F.told F.failures files.old files.new K.held K.faults sink.old sink.new (ending_of result)) }
{
    match words {
        [project, trace] => judge_trace(alloc, project.as_str(), trace.as_str(), files, sink),
        _ => say(Verdict::Usage, USAGE, files, sink),
    }
}

/// The program `logix_laws P T`: judges the trace of the file `T`, of a run of the project of the file `P`, by the laws that
/// `logix audit` leaves out, and writes one line, by one put.
///
/// With `Ok` that is `yes N`: the trace has N events, and keeps each law. With `Breach` it is `no LAW K`: event K, counted from 0, is
/// the first that breaks a law, and LAW is the first in the order of [`Law`](lgx_laws::Law) that it breaks. A project and a
/// trace are refused as `logix audit` refuses them; any other words are answered with the usage line.
#[tactic(auto, using(lgx_answer::proofs::Follows::follows_plan))]
pub fn judge<F: Files, K: Sink>(
    alloc: Global,
    words: &[String],
    files: &mut F,
    sink: &mut K,
) -> Status
    ensures { FollowsPlan (plan_of (map string_bytes words.now))
        (call_of F.told F.failures files.old files.new K.held K.faults sink.old sink.new (ending_of result)) }
{
    follow(alloc, words, files, sink)
}

/// The program `logix_laws`, whose words have a plan.
pub struct LawsProgram;

impl Planned for LawsProgram {
    ghost use Rattle.cmd_laws.specs.LawsPlan.{plan_of};

    ghost plan = { λ words. plan_of words };

    fn follow<F: Files, K: Sink>(
        alloc: Global,
        words: &[String],
        files: &mut F,
        sink: &mut K,
    ) -> Status {
        judge(alloc, words, files, sink)
    }
}
