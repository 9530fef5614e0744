// A journal, run on a project with its executions counted.
ghost use Rattle.std.specs.Prelude.{◌≡◌, ℕ, ◌≤◌, ◌+◌, List, ◌++◌, length, replicate, IfOk, OnOk};
ghost use Rattle.spec_base.specs.declared.limits.TheConstants.{MAX_EVENTS};
ghost use Rattle.spec_machine.specs.declared.event.Event.{Event as Events};
ghost use Rattle.spec_machine.specs.Project.{Project as Projects};
ghost use Rattle.lgx_cover.specs.Covers.{Covers, IsCoverage};

use crate::coverage::Coverage;
use lgx_edit::Plant;
use lgx_journal::{Event, Journal};
use lgx_num::Memory;
use std::alloc::Global;

/// Takes an event `count` times: processor steps all at once, others one by one.
fn apply_run(coverage: &mut Coverage, event: &Event, count: u32) -> Result<(), Memory>
    requires coverage { IsCoverage coverage.old }
    requires room { coverage.old.controller.spent + count ≤ MAX_EVENTS }
    ensures { (project : Projects) (events : List Events) → Covers coverage.old project events → OnOk result (Covers coverage.new project (events ++ replicate count event.now)) }
{
    if let Event::Cpu = event {
        return coverage.steps(count);
    }
    for _ in 0..count {
        coverage.apply(event)?;
    }
    Ok(())
}

/// The counts of a journal's executions. Each run of equal events is looked up once.
pub(crate) fn covered(alloc: Global, project: Plant, journal: &Journal) -> Result<Coverage, Memory>
    requires { length journal.now.events ≤ MAX_EVENTS }
    ensures { IfOk result (λ coverage. Covers coverage project journal.now.events) }
{
    let mut coverage = Coverage::new(alloc, project)?;
    for i in 0..journal.runs() {
        apply_run(&mut coverage, journal.event_at(i), journal.count_at(i))?;
    }
    Ok(coverage)
}
