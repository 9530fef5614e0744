// Why nothing can be said of a row.
use lgx_check::CheckError;
use lgx_neutral::RungError;
use lgx_num::Memory;
use lgx_rung::{CheckFault, TextFault};
use lgx_tags::{SealError, TagError};
use lgx_types::TypeError;
use std::alloc::{AllocError, AllocFailed};

/// Why nothing can be said of a row.
#[derive(Debug, Drop)]
pub enum Refusal {
    Memory,
    /// A rung's text has this fault.
    Text(TextFault),
    /// A routine's rungs have this fault.
    Check(CheckFault),
    /// It isn't of the form of a row, or a declaration in it is refused.
    Form,
    /// An instruction can't be executed over the image of its tags.
    NotExecutable,
}

impl From<Memory> for Refusal {
    fn from(_: Memory) -> Self {
        Refusal::Memory
    }
}

impl From<AllocError> for Refusal {
    fn from(_: AllocError) -> Self {
        Refusal::Memory
    }
}

impl<T: Drop> From<AllocFailed<T>> for Refusal {
    fn from(_: AllocFailed<T>) -> Self {
        Refusal::Memory
    }
}

impl From<RungError> for Refusal {
    fn from(error: RungError) -> Self {
        match error {
            RungError::Text(fault) => Refusal::Text(fault),
            RungError::Memory => Refusal::Memory,
        }
    }
}

impl From<CheckError> for Refusal {
    fn from(error: CheckError) -> Self {
        match error {
            CheckError::Check(fault) => Refusal::Check(fault),
            CheckError::Memory => Refusal::Memory,
        }
    }
}

impl From<TypeError> for Refusal {
    fn from(error: TypeError) -> Self {
        match error {
            TypeError::Fault(_) => Refusal::Form,
            TypeError::Memory => Refusal::Memory,
        }
    }
}

impl From<TagError> for Refusal {
    fn from(error: TagError) -> Self {
        match error {
            TagError::Tag(_) => Refusal::Form,
            TagError::Memory => Refusal::Memory,
        }
    }
}

impl From<SealError> for Refusal {
    fn from(error: SealError) -> Self {
        match error {
            SealError::Alias { .. } => Refusal::Form,
            SealError::Memory => Refusal::Memory,
        }
    }
}
