// What the controller answers to an event.
use crate::reply::Reply;
use spec_tables::Fault;

/// What a processor step did. Tasks and programs are numbers in project order.
#[derive(Clone, Copy, PartialEq, Eq, Debug)]
pub enum What {
    /// No task is up.
    Idle,
    /// The task began its next program; `version` is the number of the rungs that it took.
    Began {
        task: u32,
        program: u32,
        version: u32,
    },
    /// An instruction was executed.
    Ran {
        task: u32,
        program: u32,
    },
    /// One element of a copy was copied.
    Copied {
        task: u32,
        program: u32,
    },
    /// A routine was left; `ended` says that the program scan ended with it.
    Left {
        task: u32,
        program: u32,
        ended: bool,
    },
}

/// What a processor step meant for tasks and copies: a region opened or closed, a task triggered, a copy started or ended.
/// The flag of a copy says that it is synchronous (CPS).
#[derive(Clone, Copy, PartialEq, Eq, Debug)]
pub enum Mark {
    Plain,
    Up,
    Down,
    Trigger(u32),
    CopyStart(bool),
    CopyEnd(bool),
}

/// The answer to a processor step: `fault` is the one that it recorded.
#[derive(Clone, Copy, PartialEq, Eq, Debug)]
pub struct Moment {
    pub what: What,
    pub mark: Mark,
    pub fault: Option<Fault>,
}

/// The answer to a tick: the task whose watchdog ran out, and masks of the tasks that were released and of those that
/// overlapped, bit t standing for task t.
#[derive(Clone, Copy, PartialEq, Eq, Debug)]
pub struct TickReport {
    pub watchdog: Option<u32>,
    pub released: u32,
    pub overlapped: u32,
}

/// The answer to an action: its reply, the fault that it recorded, and the mask of the tasks that it released.
#[derive(Clone, Copy, PartialEq, Eq, Debug)]
pub struct Outcome {
    pub reply: Reply,
    pub fault: Option<Fault>,
    pub released: u32,
}
