// What a trace says of each event, as numbers alone: the laws of the schedule are defined over it by counting.
use lgx_num::Items;

/// What the instruction or the copied element of a step did: a region count up or down, a trigger of a task, and
/// the start or the end of a copy, which is `Sync` for a synchronous one.
#[derive(Clone, Copy)]
pub enum TraceMark {
    Plain,
    Up,
    Down,
    Trigger(u32),
    Copy,
    Sync,
    CopyEnd,
    SyncEnd,
}

#[derive(Clone, Copy)]
pub enum StepFault {
    Plain,
    Minor,
    Major,
}

/// The kind of an action: the five edits, the three changes of mode, and any other.
#[derive(Clone, Copy)]
pub enum Verb {
    Accept,
    Test,
    Untest,
    Assemble,
    Cancel,
    Run,
    Program,
    Clear,
    Other,
}

/// `Number` is the number of an accept, `No` is held or refused, and `Done` any other answer.
#[derive(Clone, Copy)]
pub enum TraceAnswer {
    Done,
    Number(u32),
    No,
}

/// An event with its answer. Tasks and programs are numbers in project order, and bit t of a mask stands for task t.
#[derive(Clone, Copy)]
pub enum TraceEvent {
    Idle,
    Began {
        task: u32,
        program: u32,
        version: u32,
    },
    Step {
        task: u32,
        program: u32,
        mark: TraceMark,
        fault: StepFault,
    },
    Left {
        task: u32,
        program: u32,
        ended: bool,
    },
    Tick {
        released: u32,
        overlapped: u32,
        watchdog: Option<u32>,
    },
    Act {
        lane: u32,
        verb: Verb,
        program: Option<u32>,
        answer: TraceAnswer,
        released: u32,
    },
}

/// What the laws ask of a task: whether it is continuous, its priority (1 is the highest, and the continuous task
/// has `LEAST_PRIORITY`), the number of its programs, and whether it is inhibited.
#[derive(Clone, Copy)]
pub struct AuditTask {
    pub continuous: bool,
    pub priority: u8,
    pub programs: u32,
    pub inhibited: bool,
}

/// The tasks, and the number of programs in the project.
#[derive(Drop)]
pub struct Table {
    pub tasks: Items<AuditTask>,
    pub programs: u32,
}
