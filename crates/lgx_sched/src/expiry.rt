// Watchdogs of tasks that are up.
ghost use Rattle.std.specs.Prelude.{◌≡◌, ◌<◌, ◌≤◌, length, IfSome};
ghost use Rattle.std.specs.List.{position_from, zip};
ghost use Rattle.spec_base.specs.declared.limits.TheConstants.{MAX_TASKS};
ghost use Rattle.lgx_sched.specs.TableView.{has_run_out};

use crate::active::ActiveTask;
use spec_tables::TaskDef;

/// Whether the task has been up for the ticks of its watchdog.
fn has_run_out(now: u32, def: TaskDef, up: Option<ActiveTask>) -> bool
    ensures { result ≡ has_run_out now def up }
{
    match up {
        Some(up) => now.saturating_sub(up.start) >= def.watchdog,
        None => false,
    }
}

/// The first task that has been up for the ticks of its watchdog.
pub fn first_expired(now: u32, defs: &[TaskDef], ups: &[Option<ActiveTask>]) -> Option<u32>
    requires few { length defs.now ≤ MAX_TASKS }
    requires as_many { length ups.now ≡ length defs.now }
    ensures known { IfSome result (λ t. t < length defs.now) }
    ensures value { result ≡ position_from (λ t. has_run_out now t.0 t.1) 0 (zip defs.now ups.now) }
{
    for (t, def) in defs.iter().enumerate() {
        if has_run_out(now, *def, ups[t]) {
            return Some(t as u32);
        }
    }
    None
}
