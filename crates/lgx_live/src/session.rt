// A whole session: the lines that a console gives, each answered before the next is asked for.
ghost use Rattle.std.specs.Prelude.{◌≡◌, [], ◌<◌};
ghost use Rattle.spec_machine.specs.Project.{Project};
ghost use Rattle.lgx_answer.specs.declared.status.Verdict.{Verdict};
ghost use Rattle.lgx_answer.specs.Endings.{ending_of, after_puts};
ghost use Rattle.lgx_record.specs.IsRunOf.{IsRunOf};
ghost use Rattle.lgx_live.specs.Talks.{Talks, IsAt};
ghost use Rattle.lgx_live.specs.Session.{no_line_yet};

use crate::console::{AskFault, Console};
use crate::followed::Followed;
use crate::turns::{Pad, end, exchange};
use lgx_answer::Status;
use lgx_io::SinkFault;
use lgx_journal::is_last;
use lgx_watch::Log;
use std::alloc::Global;

/// How a session ends by what was put last.
fn status_of(done: Result<(), SinkFault>) -> Status
    ensures { ending_of result ≡ after_puts done Verdict.Ok }
{
    match done {
        Ok(()) => Status::Ok,
        Err(SinkFault::Failed) => Status::WriteFault,
        Err(SinkFault::Memory) => Status::Memory,
    }
}

/// Lines and answers in turn, up to the end of the session.
fn take_turns<C: Console>(
    alloc: Global,
    console: &mut C,
    follow: &mut Followed,
    pad: &mut Pad,
) -> Status
    requires written { (C.seen console.old).waiting ≡ [] }
    requires some { (project : Project) × IsAt (IsRunOf follow.old.run) pad.old.events pad.old.lines project no_line_yet }
    ensures { (project : Project) → IsAt (IsRunOf follow.old.run) pad.old.events pad.old.lines project no_line_yet → Talks project (C.seen console.old) (C.seen console.new) (ending_of result) }
{
    let mut line = Vec::new(alloc);
    for _ in 0..u64::MAX - 1 {
        match console.next_line(&mut line) {
            Ok(true) => {
                let came = line.as_slice();
                if is_last(came) {
                    return status_of(end(console, follow, pad));
                }
                match exchange(alloc, console, follow, pad, came) {
                    Ok(()) => {}
                    Err(fault) => return status_of(Err(fault)),
                }
            }
            Ok(false) => return status_of(end(console, follow, pad)),
            Err(AskFault::Failed) => return Status::ReadFault,
            Err(AskFault::Memory) => return Status::Memory,
        }
    }
    // That many lines don't come: there is no room for their count.
    Status::Memory
}

/// A session: lines come from the console, one by one, up to the line `end` or to the last. Each is answered, and its answer is
/// written, before the next is asked for; at the end comes the report's end line. Nothing waits to be written yet, and the run
/// has no event.
///
/// `Memory` comes if memory runs out, `ReadFault` if a line couldn't be read, `WriteFault` if something couldn't be written.
pub fn talk<C: Console>(alloc: Global, console: &mut C, follow: &mut Followed) -> Status
    requires written { (C.seen console.old).waiting ≡ [] }
    requires some { (project : Project) × IsRunOf follow.old.run project [] }
    ensures { (project : Project) → IsRunOf follow.old.run project [] → Talks project (C.seen console.old) (C.seen console.new) (ending_of result) }
{
    match Log::new(alloc) {
        Ok(log) => {
            let mut pad = Pad {
                log,
                text: Vec::new(alloc),
                events: 0,
                lines: 0,
            };
            take_turns(alloc, console, follow, &mut pad)
        }
        Err(_) => Status::Memory,
    }
}
