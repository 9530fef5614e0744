// Why a trace isn't read, and what an audit finds.
ghost use Rattle.std.specs.Prelude.{◌≡◌};

use lgx_num::Memory;

/// Why a line of a trace is refused.
#[derive(Clone, Copy, Debug, PartialEq, Eq)]
pub enum TraceCode {
    /// The line has none of the forms, a number is too large, or the line `end` is missing.
    K1,
    /// A task, a program or a bit of a mask isn't in the table, or a lane is above 31.
    K2,
}

/// The first line that is refused, counted from 1, with its first cause. Where the line `end` is missing it is the line after the
/// last, or the last one if that has no line feed.
#[derive(Clone, Copy, Debug)]
pub struct TraceFault {
    pub code: TraceCode,
    pub line: u64,
}

/// A line that is refused, or out of memory.
#[derive(Clone, Copy, Debug)]
pub enum TraceError {
    Line(TraceFault),
    Memory,
}

/// A breach of a law, or out of memory.
#[derive(Clone, Copy, Debug)]
pub enum AuditError {
    /// The least law that is broken (1 the priority law, 2 the turn law, 3 the version law) with the first event that
    /// breaks one, counted from 0.
    Breach { law: u8, at: u64 },
    Memory,
}

impl From<Memory> for TraceError {
    ghost use Rattle.lgx_audit.specs.declared.error.TraceError.TheVariants as reading;

    ghost from_gives = { λ _ e. e ≡ reading.Memory };

    fn from(_: Memory) -> Self {
        TraceError::Memory
    }
}

impl From<Memory> for AuditError {
    ghost use Rattle.lgx_audit.specs.declared.error.AuditError.TheVariants as judging;

    ghost from_gives = { λ _ e. e ≡ judging.Memory };

    fn from(_: Memory) -> Self {
        AuditError::Memory
    }
}
