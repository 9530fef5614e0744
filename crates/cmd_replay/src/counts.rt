// How many lines a report has, and its end line.
ghost use Rattle.std.specs.Prelude.{◌≡◌, ◌≤◌, length, IfOk, OnOk};
ghost use Rattle.spec_base.specs.declared.limits.TheConstants.{MAX_EVENTS};
ghost use Rattle.cmd_replay.specs.CountLines.{count_line, counted_report};
ghost use Rattle.cmd_replay.specs.Rest.{counts_rest, counts_left};

use crate::journal_run::replayed;
use lgx_answer::Lines;
use lgx_journal::Journal;
use lgx_judge::{End, end_line, end_of};
use lgx_num::Memory;
use lgx_project::Project;
use lgx_watch::{Log, push_count};
use std::alloc::Global;

/// Which line is handed out next.
#[derive(Clone, Copy)]
pub(crate) enum Next {
    /// The line with the counts, and the others.
    Counts,
    /// The end line.
    Last,
    /// No line.
    Nothing,
}

/// What is said of the report of a run: how many lines it has, and its end line.
#[derive(Drop)]
pub(crate) struct Counts {
    /// The number that made the texts.
    number: u32,
    log: Log,
    end: End,
    next: Next,
}

/// Makes the line with the number that made the texts, and how many lines the log of their run kept and lost, in place of what is
/// in the text.
#[tactic(auto, unfolding(crate::specs::CountLines::count_line))]
fn count_line(text: &mut Vec<u8>, number: u32, log: &Log) -> Result<(), Memory>
    ensures { OnOk result (text.new.items ≡ count_line number (length log.now.lines) log.now.lost) }
{
    text.clear();
    text.extend_from_slice(b"gen")?;
    push_count(text, u64::from(number))?;
    text.extend_from_slice(b" lines")?;
    push_count(text, u64::from(log.lines()))?;
    text.extend_from_slice(b" lost")?;
    push_count(text, log.lost())?;
    text.push(b'\n')?;
    Ok(())
}

impl Lines for Counts {
    ghost rest = { counts_rest };

    ghost left = { λ l. counts_left l.next };

    fn line(&mut self, line: &mut Vec<u8>) -> Result<bool, Memory> {
        match self.next {
            Next::Counts => {
                count_line(line, self.number, &self.log)?;
                self.next = Next::Last;
                Ok(true)
            }
            Next::Last => {
                end_line(line, &self.log, self.end)?;
                self.next = Next::Nothing;
                Ok(true)
            }
            Next::Nothing => Ok(false),
        }
    }
}

/// What is said of a journal that is replayed on a project, both made from a number.
pub(crate) fn counts_of(
    alloc: Global,
    number: u32,
    project: Project,
    journal: &Journal,
) -> Result<Counts, Memory>
    requires { length journal.now.events ≤ MAX_EVENTS }
    ensures { IfOk result (λ lines. counts_rest lines ≡ counted_report number project journal.now.events) }
{
    let mut log = Log::new(alloc)?;
    let run = replayed(alloc, project, journal, &mut log)?;
    let end = end_of(run.controller(), run.steps());
    Ok(Counts {
        number,
        log,
        end,
        next: Next::Counts,
    })
}
