// Why nothing can be said of a row.
use lgx_check::CheckError;
use lgx_edit::EditError;
use lgx_journal::JournalError;
use lgx_neutral::RungError;
use lgx_num::Memory;
use lgx_tags::{SealError, TagError};
use lgx_types::TypeError;
use std::alloc::{AllocError, AllocFailed};

/// Why nothing can be said of a row.
#[derive(Clone, Copy, Debug)]
pub enum Trouble {
    /// Memory ran out.
    Memory,
    /// The row isn't of the form of its kind.
    Form,
}

impl From<Memory> for Trouble {
    fn from(_: Memory) -> Self {
        Trouble::Memory
    }
}

impl From<AllocError> for Trouble {
    fn from(_: AllocError) -> Self {
        Trouble::Memory
    }
}

impl<T: Drop> From<AllocFailed<T>> for Trouble {
    fn from(_: AllocFailed<T>) -> Self {
        Trouble::Memory
    }
}

impl From<RungError> for Trouble {
    fn from(error: RungError) -> Self {
        match error {
            RungError::Text(_) => Trouble::Form,
            RungError::Memory => Trouble::Memory,
        }
    }
}

impl From<CheckError> for Trouble {
    fn from(error: CheckError) -> Self {
        match error {
            CheckError::Check(_) => Trouble::Form,
            CheckError::Memory => Trouble::Memory,
        }
    }
}

impl From<JournalError> for Trouble {
    fn from(error: JournalError) -> Self {
        match error {
            JournalError::Line(_) => Trouble::Form,
            JournalError::Memory => Trouble::Memory,
        }
    }
}

impl From<EditError> for Trouble {
    fn from(error: EditError) -> Self {
        match error {
            EditError::Edit(_) => Trouble::Form,
            EditError::Memory => Trouble::Memory,
        }
    }
}

impl From<TypeError> for Trouble {
    fn from(error: TypeError) -> Self {
        match error {
            TypeError::Fault(_) => Trouble::Form,
            TypeError::Memory => Trouble::Memory,
        }
    }
}

impl From<TagError> for Trouble {
    fn from(error: TagError) -> Self {
        match error {
            TagError::Tag(_) => Trouble::Form,
            TagError::Memory => Trouble::Memory,
        }
    }
}

impl From<SealError> for Trouble {
    fn from(error: SealError) -> Self {
        match error {
            SealError::Alias { .. } => Trouble::Form,
            SealError::Memory => Trouble::Memory,
        }
    }
}
