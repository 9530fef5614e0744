// Faults that the controller records, and their numbers: a type, and codes of it (1756-PM014).
/// The type of a program's fault, which an instruction caused.
pub const PROGRAM_FAULT: u8 = 4;

/// A result overflows.
pub const OVERFLOW: u8 = 4;

/// A subscript is out of range.
pub const BAD_SUBSCRIPT: u8 = 20;

/// A routine wants inputs that weren't handed over, or a call returns that aren't given.
pub const MISSING_PARAMETERS: u8 = 31;

/// A timer has a negative number.
pub const BAD_TIMER: u8 = 34;

/// A call finds all frames taken.
pub const TOO_DEEP: u8 = 84;

/// The type of a task's fault.
pub const TASK_FAULT: u8 = 6;

/// The task was up for its watchdog's ticks.
pub const WATCHDOG: u8 = 1;

/// A periodic task was due while it was up.
pub const PERIODIC_OVERLAP: u8 = 2;

/// An event task was released while it was up (profile).
pub const EVENT_OVERLAP: u8 = 3;

/// A major fault stops all tasks; a minor one is recorded.
#[derive(Clone, Copy, PartialEq, Eq, Debug)]
pub enum Severity {
    Minor,
    Major,
}

/// A recorded fault: type `kind` and `code`, the task, the program if it is an instruction's, and the tick.
#[derive(Clone, Copy, PartialEq, Eq, Debug)]
pub struct Fault {
    pub severity: Severity,
    pub kind: u8,
    pub code: u8,
    pub task: u32,
    pub program: Option<u32>,
    pub tick: u32,
}
