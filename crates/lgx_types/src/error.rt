// Why there is no table of types.
ghost use Rattle.std.specs.Prelude.{◌≡◌};
ghost use Rattle.lgx_types.specs.declared.error.TypeError.TheVariants.{Fault, Memory as NoMemory};

use lgx_num::Memory as NoMemory;
use spec_language::TypeFault;
use std::alloc::{AllocError, AllocFailed};

/// Why there is no table: the first fault of the declarations, or out of memory.
#[derive(Clone, Copy, PartialEq, Eq, Debug)]
pub enum TypeError {
    Fault(TypeFault),
    Memory,
}

impl From<NoMemory> for TypeError {
    ghost from_gives = { λ _ e. e ≡ NoMemory };

    fn from(_: NoMemory) -> Self {
        TypeError::Memory
    }
}

impl From<AllocError> for TypeError {
    ghost from_gives = { λ _ e. e ≡ NoMemory };

    fn from(_: AllocError) -> Self {
        TypeError::Memory
    }
}

impl<T: Drop> From<AllocFailed<T>> for TypeError {
    ghost from_gives = { λ _ e. e ≡ NoMemory };

    fn from(_: AllocFailed<T>) -> Self {
        TypeError::Memory
    }
}
