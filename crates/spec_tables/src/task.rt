// Tasks as the project gives them.
/// The kind of a task (1756-PM005); a period is a number of ticks, at least 1.
#[derive(Clone, Copy, PartialEq, Eq, Debug)]
pub enum TaskKind {
    Continuous,
    Periodic(u32),
    Event,
}

/// A task: its priority from 1, the highest, to 15, or 16 for the continuous task, its watchdog in ticks, and whether it is
/// inhibited: such a task is prescanned and never released.
#[derive(Clone, Copy, PartialEq, Eq, Debug)]
pub struct TaskDef {
    pub kind: TaskKind,
    pub priority: u8,
    pub watchdog: u32,
    pub inhibited: bool,
}

/// What a release of a task is answered.
#[derive(Clone, Copy, PartialEq, Eq, Debug)]
pub enum Release {
    /// The task was down, and is up.
    Released,
    /// The task was up, and stays as it was.
    Overlap,
    /// The task is inhibited, and nothing changed.
    Inhibited,
}
