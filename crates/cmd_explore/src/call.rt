// The program `logix_explore`, over any files and any sink.
ghost use Rattle.std.specs.Prelude.{◌≡◌, ◌∷◌, [], List, ℕ, map, string_bytes, Some};
ghost use Rattle.lgx_answer.specs.declared.status.Verdict.{Verdict as Verdicts};
ghost use Rattle.lgx_answer.specs.Endings.{ending_of, number};
ghost use Rattle.lgx_answer.specs.Answered.{Answered, call_of};
ghost use Rattle.lgx_answer.specs.Laws.{FollowsPlan};
ghost use Rattle.lgx_answer.specs.Process.{IsProcess};
ghost use Rattle.cmd_explore.specs.ExplorePlan.{plan_of};
ghost use Rattle.cmd_explore.specs.Explored.{said_by, Explored, EndsExplored};

use crate::command::explore_script;
use lgx_answer::{Status, Verdict, exit_number, say};
use lgx_explore::Progress;
use lgx_io::{Files, Gathered, Sink};
use std::alloc::Global;
use std::io::Write;

/// The line that says how to use the program.
pub const USAGE: &[u8] = b"usage: logix_explore P S Q\n";

/// Follows the plan of the words.
fn follow<P: Progress + Drop, F: Files, K: Sink>(
    alloc: Global,
    words: &[String],
    progress: P,
    files: &mut F,
    sink: &mut K,
) -> Status
    ensures { Answered (plan_of (map string_bytes words.now))
        (call_of F.told F.failures files.old files.new K.held K.faults sink.old sink.new (ending_of result)) }
{
    match words {
        [project, script, question] => explore_script(
            alloc,
            project.as_str(),
            script.as_str(),
            question.as_str(),
            progress,
            files,
            sink,
        ),
        _ => say(Verdict::Usage, USAGE, files, sink),
    }
}

/// The program `logix_explore P S Q`: says of all journals that the script of the file `S` may have on the project of the file `P`,
/// whose actions come within the window of the question of the file `Q`, whether a line of the question ever holds after an event.
/// It writes one text, by one put.
///
/// With `Ok` that is `never N`: none of the question's N lines ever holds. With `Breach` it is a journal in canonical form, up to the
/// event after which a line first holds, headed by the comment `# line L after step K, tick T`: lines are counted from 1, and K and T
/// are the numbers of its processor steps and ticks; no journal with fewer steps shows a line. With `Unknown` it is `unknown K`: no
/// line holds in fewer than K steps, but with K steps there are more states than `MAX_LAYER_STATES`. Its time and its memory grow with
/// the states of a layer, and not with the number of journals.
///
/// The files are read in this order, each only if none before it is refused. A project and a script are refused as `logix`
/// refuses them, a question with the line `question CODE line N`; any other words are answered with the usage line. How far the
/// exploration is, is reported to `progress`.
#[tactic(auto, using(lgx_answer::proofs::Follows::follows_plan, crate::proofs::Telling::words_explored))]
pub fn explore<P: Progress + Drop, F: Files, K: Sink>(
    alloc: Global,
    words: &[String],
    progress: P,
    files: &mut F,
    sink: &mut K,
) -> Status
    ensures follows { FollowsPlan (plan_of (map string_bytes words.now))
        (call_of F.told F.failures files.old files.new K.held K.faults sink.old sink.new (ending_of result)) }
    ensures explored { (p s q : List ℕ) (said : Verdicts) → map string_bytes words.now ≡ p ∷ s ∷ q ∷ [] → said_by (number result) ≡ Some said
        → Explored (F.told files.old) (record { old = K.held sink.old; new = K.held sink.new }) p s q said }
{
    follow(alloc, words, progress, files, sink)
}

/// All that the process does with its words: what [`explore`] does, and then what still waits to be written is written. Answers
/// the number that the process ends with.
pub fn program<P: Progress + Drop, F: Files, W: Write + Drop>(
    alloc: Global,
    words: &[String],
    progress: P,
    files: &mut F,
    output: &mut Gathered<W>,
) -> u8
    ensures process { IsProcess (plan_of (map string_bytes words.now)) (F.told files.old)
        (record { old = F.failures files.old; new = F.failures files.new })
        output.old output.new result }
    ensures explored { (p s q : List ℕ) (said : Verdicts) → map string_bytes words.now ≡ p ∷ s ∷ q ∷ [] → said_by result ≡ Some said
        → EndsExplored (F.told files.old) output.old output.new p s q said }
{
    let status = explore(alloc, words, progress, files, output);
    exit_number(status, output)
}
