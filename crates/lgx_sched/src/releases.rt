// Which tasks are released.
ghost use Rattle.std.specs.Prelude.{◌≡◌, ◌<◌, ◌≤◌, length, IfSome};
ghost use Rattle.std.specs.List.{position_from};
ghost use Rattle.spec_base.specs.declared.limits.TheConstants.{MAX_TASKS};
ghost use Rattle.spec_tables.specs.Tasks.{if_released, is_continuous};
ghost use Rattle.lgx_sched.specs.TableView.{answer_of};

use crate::active::ActiveTask;
use spec_tables::{Release, TaskDef, TaskKind};

/// Whether it is the kind of the continuous task.
pub fn is_continuous(kind: TaskKind) -> bool
    ensures { result ≡ is_continuous kind }
{
    match kind {
        TaskKind::Continuous => true,
        TaskKind::Periodic(_) | TaskKind::Event => false,
    }
}

/// What a release of a task is answered.
pub fn answer_of(def: TaskDef, up: Option<ActiveTask>) -> Release
    ensures { result ≡ answer_of def up }
{
    if def.inhibited {
        Release::Inhibited
    } else if up.is_some() {
        Release::Overlap
    } else {
        Release::Released
    }
}

/// The task, if its release is answered so that it is up.
pub fn if_released(answer: Release, t: u32) -> Option<u32>
    ensures { result ≡ if_released answer t }
{
    match answer {
        Release::Released => Some(t),
        Release::Overlap | Release::Inhibited => None,
    }
}

/// The first continuous task.
pub fn continuous_task(defs: &[TaskDef]) -> Option<u32>
    requires { length defs.now ≤ MAX_TASKS }
    ensures known { IfSome result (λ t. t < length defs.now) }
    ensures value { result ≡ position_from (λ d. is_continuous d.kind) 0 defs.now }
{
    for (t, def) in defs.iter().enumerate() {
        if is_continuous(def.kind) {
            return Some(t as u32);
        }
    }
    None
}
