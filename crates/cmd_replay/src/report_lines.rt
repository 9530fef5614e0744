// The report of a journal, line by line.
ghost use Rattle.std.specs.Prelude.{◌≡◌, ◌≤◌, ◌+◌, ◌-◌, length, IfOk};
ghost use Rattle.spec_base.specs.declared.limits.TheConstants.{MAX_EVENTS};
ghost use Rattle.spec_text.specs.ReportText.{report};
ghost use Rattle.cmd_replay.specs.Rest.{report_rest};

use crate::journal_run::replayed;
use lgx_answer::Lines;
use lgx_journal::Journal;
use lgx_judge::{End, end_of, report_line};
use lgx_num::Memory;
use lgx_project::Project;
use lgx_record::Run;
use lgx_watch::Log;
use std::alloc::Global;

/// The lines of the report of a run, from one of them on.
#[derive(Drop)]
pub struct ReportLines {
    run: Run,
    log: Log,
    end: End,
    /// The number of the line that is handed out next.
    next: u32,
}

impl Lines for ReportLines {
    ghost rest = { report_rest };

    ghost left = { λ l. length l.log.lines + 1 - l.next };

    fn line(&mut self, line: &mut Vec<u8>) -> Result<bool, Memory> {
        let is_line = report_line(line, &self.log, self.run.names(), self.end, self.next)?;
        if is_line {
            self.next += 1;
        }
        Ok(is_line)
    }
}

/// The report of a journal that is replayed on a project.
pub(crate) fn report_of(
    alloc: Global,
    project: Project,
    journal: &Journal,
) -> Result<ReportLines, Memory>
    requires { length journal.now.events ≤ MAX_EVENTS }
    ensures { IfOk result (λ lines. report_rest lines ≡ report project journal.now.events) }
{
    let mut log = Log::new(alloc)?;
    let run = replayed(alloc, project, journal, &mut log)?;
    let end = end_of(run.controller(), run.steps());
    Ok(ReportLines {
        run,
        log,
        end,
        next: 0,
    })
}
