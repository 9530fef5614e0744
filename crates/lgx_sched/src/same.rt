// Tables of tasks copied and compared.
ghost use Rattle.std.specs.Prelude.{◌≡◌, ◌≤◌, true, length, IfOk};
ghost use Rattle.spec_base.specs.declared.limits.TheConstants.{MAX_TASKS};

use crate::active::ActiveTask;
use crate::queue::Queues;
use crate::table::TaskTable;
use lgx_num::{Items, Memory};
use spec_tables::TaskDef;
use std::alloc::Global;

/// Whether the tasks are defined the same.
fn same_def(a: TaskDef, b: TaskDef) -> bool
    ensures { result ≡ true → a ≡ b }
{
    a == b
}

/// Whether the tasks are defined the same, one by one.
fn same_defs(a: &[TaskDef], b: &[TaskDef]) -> bool
    ensures { result ≡ true → a.now ≡ b.now }
{
    if a.len() != b.len() {
        return false;
    }
    for i in 0..a.len() {
        if !same_def(a[i], b[i]) {
            return false;
        }
    }
    true
}

/// Whether the same is kept of two tasks that are up.
#[inline(always)]
pub(crate) fn same_active(a: ActiveTask, b: ActiveTask) -> bool
    ensures { result ≡ true → a ≡ b }
{
    a.start == b.start && a.region_count == b.region_count && a.cps_open == b.cps_open
}

/// Whether a task is up the same.
fn same_up(a: Option<ActiveTask>, b: Option<ActiveTask>) -> bool
    ensures { result ≡ true → a ≡ b }
{
    match (a, b) {
        (None, None) => true,
        (Some(x), Some(y)) => same_active(x, y),
        _ => false,
    }
}

/// Whether the tasks are up the same, one by one.
fn same_ups(a: &[Option<ActiveTask>], b: &[Option<ActiveTask>]) -> bool
    ensures { result ≡ true → a.now ≡ b.now }
{
    if a.len() != b.len() {
        return false;
    }
    for i in 0..a.len() {
        if !same_up(a[i], b[i]) {
            return false;
        }
    }
    true
}

impl TaskTable {
    /// The table once more.
    pub fn copied(&self, alloc: Global) -> Result<TaskTable, Memory>
        ensures { IfOk result (λ copy. copy ≡ self.now) }
    {
        let defs = Vec::from_slice(alloc, self.defs.as_slice())?;
        let ups = Vec::from_slice(alloc, &self.ups)?;
        let queues = self.queues.copied(alloc)?;
        Ok(TaskTable {
            defs: Items::of(defs),
            ups,
            queues,
            open_task: self.open_task,
            run_since: self.run_since,
            quiet: self.quiet,
        })
    }

    /// Whether the tables are the same: which ticks they know to be quiet is no part of them.
    pub fn is_same(&self, other: &TaskTable) -> bool
        ensures { result ≡ true → self.now ≡ other.now }
    {
        self.open_task == other.open_task
            && self.run_since == other.run_since
            && same_ups(&self.ups, &other.ups)
            && self.queues.is_same(&other.queues)
            && same_defs(self.defs.as_slice(), other.defs.as_slice())
    }
}
