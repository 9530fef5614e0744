// Why a journal or a script isn't read.
ghost use Rattle.std.specs.Prelude.{◌≡◌};
ghost use Rattle.lgx_journal.specs.Reading.{error_at};

use lgx_num::Memory;
use spec_text::{JournalCode, JournalFault};

/// The first line that is refused with its first cause, or out of memory.
#[derive(Clone, Copy, Debug)]
pub enum JournalError {
    Line(JournalFault),
    Memory,
}

/// The first cause of a line, or out of memory.
#[derive(Clone, Copy, Debug)]
pub enum LineError {
    Code(JournalCode),
    Memory,
}

impl From<Memory> for JournalError {
    ghost use Rattle.lgx_journal.specs.declared.error.JournalError.TheVariants as whole;

    ghost from_gives = { λ _ e. e ≡ whole.Memory };

    fn from(_: Memory) -> Self {
        JournalError::Memory
    }
}

impl From<Memory> for LineError {
    ghost use Rattle.lgx_journal.specs.declared.error.LineError.TheVariants as one;

    ghost from_gives = { λ _ e. e ≡ one.Memory };

    fn from(_: Memory) -> Self {
        LineError::Memory
    }
}

/// The error of a line, by its number.
pub(crate) fn at_line(error: LineError, line: u64) -> JournalError
    ensures { result ≡ error_at error line }
{
    match error {
        LineError::Code(code) => JournalError::Line(JournalFault { code, line }),
        LineError::Memory => JournalError::Memory,
    }
}
