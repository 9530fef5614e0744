// Why a tag or an operand was refused.
ghost use Rattle.std.specs.Prelude.{◌≡◌};
ghost use Rattle.lgx_tags.specs.declared.error.TagError.TheVariants.{Tag, Memory as no_memory};

use lgx_num::Memory;
use spec_language::TagCode;
use std::alloc::AllocFailed;

/// Why a tag wasn't declared, or an operand names no place.
#[derive(Clone, Copy, PartialEq, Eq, Debug)]
pub enum TagError {
    /// What is wrong with it.
    Tag(TagCode),
    /// There was no memory.
    Memory,
}

impl From<TagCode> for TagError {
    ghost from_gives = { λ code e. e ≡ Tag code };

    fn from(code: TagCode) -> Self {
        TagError::Tag(code)
    }
}

impl From<Memory> for TagError {
    ghost from_gives = { λ _ e. e ≡ no_memory };

    fn from(_: Memory) -> Self {
        TagError::Memory
    }
}

impl<T: Drop> From<AllocFailed<T>> for TagError {
    ghost from_gives = { λ _ e. e ≡ no_memory };

    fn from(_: AllocFailed<T>) -> Self {
        TagError::Memory
    }
}

/// Why a table wasn't sealed.
#[derive(Clone, Copy, PartialEq, Eq, Debug)]
pub enum SealError {
    /// The first fault of an alias's chain. `alias` is its number among the aliases, in order of declaration, from 0.
    Alias { code: TagCode, alias: u32 },
    /// There was no memory.
    Memory,
}

impl From<Memory> for SealError {
    ghost use Rattle.lgx_tags.specs.declared.error.SealError.TheVariants.{Memory as no_memory_to_seal};

    ghost from_gives = { λ _ e. e ≡ no_memory_to_seal };

    fn from(_: Memory) -> Self {
        SealError::Memory
    }
}
