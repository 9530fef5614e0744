// What a reading answers if it gives no rung.
use lgx_num::Memory;
use lgx_rung::{TextCode, TextFault};

/// Why a text wasn't read.
#[derive(Clone, Copy, PartialEq, Eq, Debug)]
pub enum RungError {
    /// It spells no rung; this is its first fault.
    Text(TextFault),
    /// There was no memory for the rung.
    Memory,
}

impl From<Memory> for RungError {
    ghost use Rattle.std.specs.Prelude.{◌≡◌};
    ghost use Rattle.lgx_neutral.specs.declared.fault.RungError.TheVariants.{Memory as no_memory_for_rung};

    ghost from_gives = { λ _ r. r ≡ no_memory_for_rung };

    fn from(_: Memory) -> Self {
        RungError::Memory
    }
}

/// Why a token wasn't taken. The place of the fault is the token's.
#[derive(Clone, Copy)]
pub(crate) enum Refusal {
    Text(TextCode),
    Memory,
}

impl From<Memory> for Refusal {
    ghost use Rattle.std.specs.Prelude.{◌≡◌};
    ghost use Rattle.lgx_neutral.specs.declared.fault.Refusal.TheVariants.{Memory as no_memory};

    ghost from_gives = { λ _ r. r ≡ no_memory };

    fn from(_: Memory) -> Self {
        Refusal::Memory
    }
}

impl From<TextCode> for Refusal {
    ghost use Rattle.std.specs.Prelude.{◌≡◌};
    ghost use Rattle.lgx_neutral.specs.declared.fault.Refusal.TheVariants.{Text};

    ghost from_gives = { λ code r. r ≡ Text code };

    fn from(code: TextCode) -> Self {
        Refusal::Text(code)
    }
}

impl Refusal {
    ghost use Rattle.std.specs.Prelude.{◌≡◌};
    ghost use Rattle.lgx_neutral.specs.Taking.{refusal_at};

    /// The refusal of a token at this place.
    pub(crate) fn at(self, at: u32) -> RungError
        ensures { result ≡ refusal_at self at }
    {
        match self {
            Refusal::Text(code) => RungError::Text(TextFault { code, at }),
            Refusal::Memory => RungError::Memory,
        }
    }
}
