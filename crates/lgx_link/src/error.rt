// Why a link script isn't read.
ghost use Rattle.std.specs.Prelude.{◌≡◌};
ghost use Rattle.spec_link.specs.LinkText.{code_of};
ghost use Rattle.lgx_link.specs.Reading.{error_at, error_of};

use lgx_journal::LineError;
use lgx_num::Memory;
use spec_link::{LinkCode, LinkFault};
use spec_text::JournalCode;

/// The first line that is refused with its first cause, or out of memory.
#[derive(Clone, Copy)]
pub enum LinkError {
    Line(LinkFault),
    Memory,
}

/// The first cause of a line, or out of memory.
#[derive(Clone, Copy)]
pub(crate) enum StepError {
    Code(LinkCode),
    Memory,
}

impl From<Memory> for LinkError {
    ghost use Rattle.lgx_link.specs.declared.error.LinkError.TheVariants as whole;

    ghost from_gives = { λ _ e. e ≡ whole.Memory };

    fn from(_: Memory) -> Self {
        LinkError::Memory
    }
}

/// The cause of a controller's line, as one of a link script.
fn code_of(code: JournalCode) -> LinkCode
    ensures { result ≡ code_of code }
{
    match code {
        JournalCode::J2 => LinkCode::J2,
        JournalCode::J4 => LinkCode::J4,
        _ => LinkCode::J1,
    }
}

/// The error of a controller's line, as one of a link script.
pub(crate) fn error_of(error: LineError) -> StepError
    ensures { result ≡ error_of error }
{
    match error {
        LineError::Code(code) => StepError::Code(code_of(code)),
        LineError::Memory => StepError::Memory,
    }
}

/// The error of a line, by its number.
pub(crate) fn error_at(error: StepError, line: u64) -> LinkError
    ensures { result ≡ error_at error line }
{
    match error {
        StepError::Code(code) => LinkError::Line(LinkFault { code, line }),
        StepError::Memory => LinkError::Memory,
    }
}
