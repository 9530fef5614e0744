// Why a question isn't read.
ghost use Rattle.std.specs.Prelude.{◌≡◌};
ghost use Rattle.lgx_question.specs.Reading.{error_at};

use lgx_num::Memory;
use spec_explore::{QuestionCode, QuestionFault};

/// The first line that is refused with its first cause, or out of memory.
#[derive(Clone, Copy, Debug)]
pub enum QuestionError {
    Line(QuestionFault),
    Memory,
}

/// The first cause of a line, or out of memory.
#[derive(Clone, Copy, Debug)]
pub(crate) enum LineError {
    Code(QuestionCode),
    Memory,
}

impl From<Memory> for LineError {
    ghost use Rattle.lgx_question.specs.declared.error.LineError.TheVariants as one;

    ghost from_gives = { λ _ e. e ≡ one.Memory };

    fn from(_: Memory) -> Self {
        LineError::Memory
    }
}

/// The error of a line, by its number.
pub(crate) fn at_line(error: LineError, line: u64) -> QuestionError
    ensures { result ≡ error_at error line }
{
    match error {
        LineError::Code(code) => QuestionError::Line(QuestionFault { code, line }),
        LineError::Memory => QuestionError::Memory,
    }
}
