// Why an accept isn't done.
ghost use Rattle.std.specs.Prelude.{◌≡◌};
ghost use Rattle.lgx_edit.specs.declared.error.EditError.TheVariants.{Edit, Memory as no_memory};

use lgx_num::Memory;
use spec_machine::EditFault;
use std::alloc::{AllocError, AllocFailed};

/// Why an accept isn't done.
#[derive(Clone, Copy, PartialEq, Eq)]
pub enum EditError {
    /// It is refused; this is the first cause.
    Edit(EditFault),
    /// There was no memory for the merged rungs and their code.
    Memory,
}

impl From<EditFault> for EditError {
    ghost from_gives = { λ fault e. e ≡ Edit fault };

    fn from(fault: EditFault) -> Self {
        EditError::Edit(fault)
    }
}

impl From<Memory> for EditError {
    ghost from_gives = { λ _ e. e ≡ no_memory };

    fn from(_: Memory) -> Self {
        EditError::Memory
    }
}

impl From<AllocError> for EditError {
    ghost from_gives = { λ _ e. e ≡ no_memory };

    fn from(_: AllocError) -> Self {
        EditError::Memory
    }
}

impl<T: Drop> From<AllocFailed<T>> for EditError {
    ghost from_gives = { λ _ e. e ≡ no_memory };

    fn from(_: AllocFailed<T>) -> Self {
        EditError::Memory
    }
}
