// Why a text is no report.
ghost use Rattle.std.specs.Prelude.{◌≡◌};
ghost use Rattle.lgx_chart.specs.Reading.{fault_at};

use lgx_num::Memory;
use std::alloc::{AllocError, AllocFailed};

/// What is wrong with a line.
#[derive(Clone, Copy, Debug, PartialEq, Eq)]
pub enum ChartCode {
    /// The line is none of a report.
    V1,
    /// Its tick or its number of processor steps is less than that of the line before.
    V2,
    /// A line, a task or a watched place more than a report may have.
    V3,
    /// The text ends without an end line and the line feed after it; the number is that of the line that should have been the
    /// end line.
    V4,
    /// Something follows the end line.
    V5,
}

/// The first line that is refused, counted from 1, and why.
#[derive(Clone, Copy, Debug, PartialEq, Eq)]
pub struct ChartFault {
    pub code: ChartCode,
    pub line: u64,
}

/// Why a text isn't read as a report.
#[derive(Clone, Copy, Debug)]
pub enum ChartError {
    Line(ChartFault),
    Memory,
}

/// The refusal of a line.
pub(crate) fn at_line(code: ChartCode, line: u64) -> ChartError
    ensures { result ≡ fault_at code line }
{
    ChartError::Line(ChartFault { code, line })
}

impl From<Memory> for ChartError {
    ghost use Rattle.lgx_chart.specs.declared.error.ChartError.TheVariants as error;

    ghost from_gives = { λ _ e. e ≡ error.Memory };

    fn from(_: Memory) -> Self {
        ChartError::Memory
    }
}

impl From<AllocError> for ChartError {
    ghost use Rattle.lgx_chart.specs.declared.error.ChartError.TheVariants as error;

    ghost from_gives = { λ _ e. e ≡ error.Memory };

    fn from(_: AllocError) -> Self {
        ChartError::Memory
    }
}

impl<T: Drop> From<AllocFailed<T>> for ChartError {
    ghost use Rattle.lgx_chart.specs.declared.error.ChartError.TheVariants as error;

    ghost from_gives = { λ _ e. e ≡ error.Memory };

    fn from(_: AllocFailed<T>) -> Self {
        ChartError::Memory
    }
}
