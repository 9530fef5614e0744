// The table of a project's tasks.
ghost use Rattle.std.specs.Prelude.{◌≡◌, ℕ, ◌<◌, ◌^◌, [], length, slice_index_or, IfOk};
ghost use Rattle.spec_tables.specs.Tasks.{is_continuous};
ghost use Rattle.spec_schedule.specs.TraceView.{audit_task, audit_tasks, table_of};

use lgx_audit::{AuditTask, Table};
use lgx_edit::PlantParts;
use lgx_num::{Items, Memory};
use spec_tables::{TaskDef, TaskKind};
use std::alloc::Global;

/// Whether a task of this kind is continuous.
fn is_continuous(kind: TaskKind) -> bool
    ensures { result ≡ is_continuous kind }
{
    match kind {
        TaskKind::Continuous => true,
        _ => false,
    }
}

/// What the laws ask of a task.
fn audit_task(task: TaskDef, programs: &Items<u32>) -> AuditTask
    requires { length programs.now < 2 ^ 32 }
    ensures { result ≡ audit_task task programs.now }
{
    AuditTask {
        continuous: is_continuous(task.kind),
        priority: task.priority,
        programs: programs.len() as u32,
        inhibited: task.inhibited,
    }
}

/// What the laws ask of the tasks.
#[tactic(auto, using(crate::proofs::Tables::one_more_task, crate::proofs::Tables::all_tasks))]
fn audit_tasks(
    alloc: Global,
    tasks: &[TaskDef],
    schedule: &[Items<u32>],
) -> Result<Vec<AuditTask>, Memory>
    requires lists { length schedule.now ≡ length tasks.now }
    requires few { (t : ℕ) → t < length schedule.now → length (slice_index_or schedule.now t []) < 2 ^ 32 }
    ensures { IfOk result (λ list. list.items ≡ audit_tasks tasks.now schedule.now) }
{
    let mut list = Vec::with_capacity(alloc, tasks.len())?;
    for (t, task) in tasks.iter().enumerate() {
        list.push(audit_task(*task, &schedule[t]))?;
    }
    Ok(list)
}

/// The table of a project's tasks, in project order.
pub fn table_of(alloc: Global, project: &PlantParts) -> Result<Table, Memory>
    ensures { IfOk result (λ table. table ≡ table_of project.now) }
{
    project.law_of_validity();
    let tasks = audit_tasks(alloc, project.tasks.as_slice(), project.schedule.as_slice())?;
    Ok(Table {
        tasks: Items::of(tasks),
        programs: project.texts.len() as u32,
    })
}
