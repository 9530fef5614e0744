// The run of a journal.
ghost use Rattle.std.specs.Prelude.{◌≡◌, ◌≤◌, length, IfOk};
ghost use Rattle.spec_base.specs.declared.limits.TheConstants.{MAX_EVENTS};
ghost use Rattle.spec_machine.specs.Report.{report_lines};
ghost use Rattle.lgx_watch.specs.Kept.{no_lines, kept_of};
ghost use Rattle.lgx_record.specs.IsRunOf.{IsRunOf};

use lgx_journal::Journal;
use lgx_num::Memory;
use lgx_project::Project;
use lgx_record::Run;
use lgx_watch::Log;
use std::alloc::Global;

/// The run of a journal on a project, whose report goes into an empty log. Equal events are taken together.
pub(crate) fn replayed(
    alloc: Global,
    project: Project,
    journal: &Journal,
    log: &mut Log,
) -> Result<Run, Memory>
    requires empty { log.old ≡ no_lines }
    requires few { length journal.now.events ≤ MAX_EVENTS }
    ensures run { IfOk result (λ run. IsRunOf run project journal.now.events) }
    ensures log { IfOk result (λ _. log.new ≡ kept_of (report_lines project journal.now.events)) }
{
    let mut run = Run::of_project(alloc, project)?;
    for i in 0..journal.runs() {
        run.take(journal.run_at(i), log)?;
    }
    Ok(run)
}
