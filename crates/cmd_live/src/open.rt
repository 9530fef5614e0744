// The call: which file is read, and what its bytes come to.
ghost use Rattle.std.specs.Prelude.{◌≡◌, [], List, ℕ, map, string_bytes, option_map, OnOk};
ghost use Rattle.spec_project.specs.Projects.{project_of};
ghost use Rattle.lgx_answer.specs.Endings.{ending_of, after_puts};
ghost use Rattle.lgx_answer.specs.Answered.{Told, Failures};
ghost use Rattle.lgx_live.specs.Console.{Says};
ghost use Rattle.lgx_live.specs.Talks.{Talks};
ghost use Rattle.cmd_live.specs.LiveCall.{IsSaid, only_word, OnProject, OnFile, IsLive};

use lgx_answer::{Status, Verdict, after_read};
use lgx_io::{Files, SinkFault};
use lgx_judge::{Judged, judge_project};
use lgx_live::{Console, Followed, talk};
use lgx_project::Project;
use lgx_record::Run;
use std::alloc::Global;

/// The line that says how to use the program.
pub const USAGE: &[u8] = b"usage: logix_live P\n";

/// The status of a whole text, or of the fault that cut it off.
fn status_after(done: Result<(), SinkFault>, whole: Verdict) -> Status
    ensures { ending_of result ≡ after_puts done whole }
{
    match done {
        Ok(()) => whole.status(),
        Err(SinkFault::Failed) => Status::WriteFault,
        Err(SinkFault::Memory) => Status::Memory,
    }
}

/// Puts a text, and writes it.
fn put_whole<C: Console>(text: &[u8], console: &mut C) -> Result<(), SinkFault>
    ensures says { Says (C.seen console.old) (C.seen console.new) text.now result }
    ensures written { OnOk result ((C.seen console.new).waiting ≡ []) }
{
    match console.put(text) {
        Ok(()) => console.flush(),
        Err(fault) => Err(fault),
    }
}

/// Says a text, and asks for nothing.
fn say<C: Console>(verdict: Verdict, text: &[u8], console: &mut C) -> Status
    ensures { (told : Told) (noted : Failures) → IsSaid verdict text.now (record {
      told = told;
      failures = record { old = noted; new = noted };
      old = C.seen console.old;
      new = C.seen console.new;
      answer = ending_of result;
    }) }
{
    status_after(put_whole(text, console), verdict)
}

/// A session on a project.
fn talk_on<C: Console>(alloc: Global, project: Project, console: &mut C) -> Status
    requires { (C.seen console.old).waiting ≡ [] }
    ensures { Talks project (C.seen console.old) (C.seen console.new) (ending_of result) }
{
    match Run::of_project(alloc, project) {
        Ok(run) => {
            let mut followed = Followed { run };
            talk(alloc, console, &mut followed)
        }
        Err(_) => Status::Memory,
    }
}

/// What the bytes of a project's file come to.
fn on_project<C: Console>(alloc: Global, bytes: &[u8], console: &mut C) -> Status
    requires { (C.seen console.old).waiting ≡ [] }
    ensures { (told : Told) (noted : Failures) → OnProject (project_of bytes.now) (record {
      told = told;
      failures = record { old = noted; new = noted };
      old = C.seen console.old;
      new = C.seen console.new;
      answer = ending_of result;
    }) }
{
    match judge_project(alloc, bytes) {
        Ok(Judged::Accepted(project)) => talk_on(alloc, project, console),
        Ok(Judged::Refused(line)) => say(Verdict::Project, line.as_slice(), console),
        Err(_) => Status::Memory,
    }
}

/// What a project's file comes to.
fn open_file<F: Files, C: Console>(
    alloc: Global,
    name: &str,
    files: &mut F,
    console: &mut C,
) -> Status
    requires { (C.seen console.old).waiting ≡ [] }
    ensures { OnFile name.now (record {
      told = F.told files.old;
      failures = record { old = F.failures files.old; new = F.failures files.new };
      old = C.seen console.old;
      new = C.seen console.new;
      answer = ending_of result;
    }) }
{
    match files.read(name) {
        Ok(bytes) => on_project(alloc, bytes.as_slice(), console),
        Err(fault) => after_read(fault),
    }
}

/// The one word, if there is one and no other.
fn only_word(words: &[String]) -> Option<&str>
    ensures { option_map (λ word. word.now) result ≡ only_word (map string_bytes words.now) }
{
    match words {
        [word] => Some(word.as_str()),
        _ => None,
    }
}

/// The program `logix_live`, over any files and any console: with the name of a file alone it reads the project of this file, and
/// then answers the lines that come from the console, one by one, up to `end` or to the last. Each answer is written before the next
/// line is asked for. A file that is no project is answered with its first refusal, as `replay` does, and no line is asked for.
///
/// Nothing waits on the console yet. [`Status`] says when each answer comes; `ReadFault` comes also if a line can't be read.
pub fn live<F: Files, C: Console>(
    alloc: Global,
    words: &[String],
    files: &mut F,
    console: &mut C,
) -> Status
    requires { (C.seen console.old).waiting ≡ [] }
    ensures { IsLive (map string_bytes words.now) (record {
      told = F.told files.old;
      failures = record { old = F.failures files.old; new = F.failures files.new };
      old = C.seen console.old;
      new = C.seen console.new;
      answer = ending_of result;
    }) }
{
    match only_word(words) {
        Some(name) => open_file(alloc, name, files, console),
        None => say(Verdict::Usage, USAGE, console),
    }
}
