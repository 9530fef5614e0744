// Names of tasks.
use lgx_num::Name;

/// A task's name, and whether it is an event task.
#[derive(Drop)]
pub struct TaskName {
    pub name: Name,
    pub event: bool,
}
