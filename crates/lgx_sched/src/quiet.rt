// Ticks at which the table of tasks has nothing to do.
ghost use Rattle.std.specs.Prelude.{◌≡◌, ◌<◌, ◌≤◌, ◌&&◌, ℕ, None, false, length, nat_lt, slice_index_or};
ghost use Rattle.spec_base.specs.declared.limits.TheConstants.{MAX_TASKS};
ghost use Rattle.spec_tables.specs.Tasks.{no_task};
ghost use Rattle.lgx_sched.specs.Represents.{HasPeriod};
ghost use Rattle.lgx_sched.specs.TableView.{has_run_out};
ghost use Rattle.lgx_sched.specs.QuietTicks.{IsIdle, is_due, kept_until};

use crate::active::ActiveTask;
use spec_tables::{TaskDef, TaskKind};

/// The ticks between two, both left out.
#[derive(Clone, Copy)]
pub struct Quiet {
    pub after: u32,
    pub until: u32,
}

impl Quiet {
    /// Whether it has this tick.
    #[inline(always)]
    pub fn contains(&self, tick: u32) -> bool
        ensures { result ≡ nat_lt self.now.after tick && nat_lt tick self.now.until }
    {
        self.after < tick && tick < self.until
    }
}

/// Until when ticks are quiet if a task has this state in place of the old one: with an earlier start it may run out earlier.
#[inline(always)]
pub fn kept_until(until: u32, old: Option<ActiveTask>, up: ActiveTask) -> u32
    ensures { result ≡ kept_until until old up }
{
    match old {
        Some(old) if old.start <= up.start => until,
        _ => 0,
    }
}

/// The tick at which a task runs out. It may be too early, but isn't too late.
fn runs_out_at(def: TaskDef, up: Option<ActiveTask>) -> u32
    ensures { (n : ℕ) → n < result → has_run_out n def up ≡ false }
{
    match up {
        Some(_) if def.watchdog == 0 => 0,
        Some(up) => up.start.saturating_add(def.watchdog),
        None => u32::MAX,
    }
}

/// The first tick after `now` at which a task of this kind is due. It may be too early, but isn't too late.
fn due_after(now: u32, run_since: u32, kind: TaskKind) -> u32
    requires { HasPeriod kind }
    ensures { (n : ℕ) → now < n → n < result → is_due n run_since kind ≡ false }
{
    match kind {
        TaskKind::Periodic(period) => {
            let since = now.saturating_sub(run_since);
            now.saturating_add(period - since % period)
        }
        TaskKind::Continuous | TaskKind::Event => u32::MAX,
    }
}

/// Until when a task is idle at each tick after `now`.
fn idle_until(now: u32, run_since: u32, def: TaskDef, up: Option<ActiveTask>) -> u32
    requires { HasPeriod def.kind }
    ensures { (n : ℕ) → now < n → n < result → IsIdle n run_since def up }
{
    runs_out_at(def, up).min(due_after(now, run_since, def.kind))
}

/// Until when all tasks are idle at each tick after `now`.
pub fn all_idle_until(now: u32, run_since: u32, defs: &[TaskDef], ups: &[Option<ActiveTask>]) -> u32
    requires few { length defs.now ≤ MAX_TASKS }
    requires as_many { length ups.now ≡ length defs.now }
    requires periods { (t : ℕ) → t < length defs.now → HasPeriod ((slice_index_or defs.now t no_task).kind) }
    ensures { (n t : ℕ) → now < n → n < result → t < length defs.now → IsIdle n run_since (slice_index_or defs.now t no_task) (slice_index_or ups.now t None) }
{
    let mut until = u32::MAX;
    for (t, def) in defs.iter().enumerate() {
        until = until.min(idle_until(now, run_since, *def, ups[t]));
    }
    until
}
