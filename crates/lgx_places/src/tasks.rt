// Event tasks by their names.
ghost use Rattle.std.specs.Prelude.{◌≡◌, ◌&&◌, ◌≤◌, length};
ghost use Rattle.spec_base.specs.declared.limits.TheConstants.{MAX_TASKS};
ghost use Rattle.lgx_num.specs.Name.{same};
ghost use Rattle.spec_machine.specs.ValidProject.{is_event};
ghost use Rattle.spec_project.specs.Places.{event_named};

use lgx_num::Name;
use spec_project::{Described, DescribedTask};
use spec_tables::TaskKind;

/// Whether it is the event task of a name.
fn is_event_named(task: &DescribedTask, name: &Name) -> bool
    ensures { result ≡ (same task.now.name name.now && is_event task.now.def.kind) }
{
    task.name.same(name) && matches!(task.def.kind, TaskKind::Event)
}

/// The number of the event task of a name; case doesn't matter.
pub(crate) fn event_named(file: &Described, name: &Name) -> Option<u32>
    requires { length file.now.tasks ≤ MAX_TASKS }
    ensures { result ≡ event_named file.now name.now }
{
    let tasks = file.tasks.as_slice();
    for (n, task) in tasks.iter().enumerate() {
        if is_event_named(task, name) {
            return Some(n as u32);
        }
    }
    None
}
