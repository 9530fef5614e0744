// The text of a run, line by line.
ghost use Rattle.std.specs.Prelude.{◌≡◌, ◌<◌, ◌++◌, ◌∷◌, [], codes, length, IsTrue, OnOk};
ghost use Rattle.spec_machine.specs.Project.{Project};
ghost use Rattle.spec_text.specs.JournalText.{joined};
ghost use Rattle.spec_text.specs.Scripts.{Script, is_script};
ghost use Rattle.lgx_shared.specs.Follows.{Follows, HasCompleted};
ghost use Rattle.cmd_run.specs.RunText.{IsRunText};
ghost use Rattle.cmd_run.specs.RunLines.{run_at, run_line, rest_of, left_of};

use crate::kept::show_kept;
use lgx_answer::Lines;
use lgx_journal::{Journal, write_event};
use lgx_judge::{End, end_of, report_line};
use lgx_num::Memory;
use lgx_shared::Recorder;

/// Which line comes next.
#[derive(Clone, Copy)]
pub(crate) enum NextLine {
    /// The journal's run with this number; after the last the line `end`.
    Journal(u32),
    /// The report's line with this number.
    Report(u32),
}

/// The lines of a run: a line for each run of equal events of the journal that was recorded, the line `end`, and the lines of
/// its report.
#[derive(Drop)]
pub(crate) struct RunLines {
    recorder: Recorder,
    end: End,
    place: NextLine,
}

impl RunLines {
    /// All lines of what was recorded.
    pub(crate) fn of(recorder: Recorder) -> RunLines
        ensures { (project : Project) (script : Script) → IsTrue (is_script script) → Follows project script recorder → HasCompleted project script recorder
            → IsRunText project script (rest_of result.recorder result.end result.place) }
    {
        show_kept(recorder.journal());
        let end = end_of(recorder.controller(), recorder.steps());
        RunLines {
            recorder,
            end,
            place: NextLine::Journal(0),
        }
    }
}

/// Makes the line of the journal's run number `i`, in place of what is in `line`.
fn run_line(line: &mut Vec<u8>, journal: &Journal, i: u32) -> Result<(), Memory>
    requires { i < length (joined journal.now.events) }
    ensures { OnOk result (line.new.items ≡ run_line (run_at journal.now.events i)) }
{
    let alloc = *line.allocator();
    *line = write_event(alloc, journal.event_at(i), journal.count_at(i))?;
    Ok(())
}

/// Makes the line `end`, in place of what is in `line`.
fn journal_end(line: &mut Vec<u8>) -> Result<(), Memory>
    ensures { OnOk result (line.new.items ≡ codes "end" ++ 10 ∷ []) }
{
    line.clear();
    line.extend_from_slice(b"end\n")?;
    Ok(())
}

impl Lines for RunLines {
    ghost use Rattle.cmd_run.specs.RunLines.{rest_of, left_of};

    ghost rest = { λ l. rest_of l.recorder l.end l.place };

    ghost left = { λ l. left_of l.recorder l.place };

    fn line(&mut self, line: &mut Vec<u8>) -> Result<bool, Memory> {
        let recorder = &self.recorder;
        match self.place {
            NextLine::Journal(next) => {
                if next < recorder.journal().runs() {
                    run_line(line, recorder.journal(), next)?;
                    self.place = NextLine::Journal(next + 1);
                } else {
                    journal_end(line)?;
                    self.place = NextLine::Report(0);
                }
                Ok(true)
            }
            NextLine::Report(next) => {
                let made = report_line(line, recorder.log(), recorder.names(), self.end, next)?;
                if made {
                    self.place = NextLine::Report(next + 1);
                }
                Ok(made)
            }
        }
    }
}
