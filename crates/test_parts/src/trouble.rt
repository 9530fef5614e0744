// Why nothing can be said of a row.
use lgx_num::Memory;
use std::alloc::{AllocError, AllocFailed};

/// Why nothing can be said of a row.
#[derive(Clone, Copy, Debug)]
pub enum Trouble {
    /// Memory ran out.
    Memory,
    /// The row isn't of the form of its kind.
    Form,
}

impl From<Memory> for Trouble {
    fn from(_: Memory) -> Self {
        Trouble::Memory
    }
}

impl From<AllocError> for Trouble {
    fn from(_: AllocError) -> Self {
        Trouble::Memory
    }
}

impl<T: Drop> From<AllocFailed<T>> for Trouble {
    fn from(_: AllocFailed<T>) -> Self {
        Trouble::Memory
    }
}
