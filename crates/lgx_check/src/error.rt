// Why a routine or an operand was refused.
ghost use Rattle.std.specs.Prelude.{◌≡◌};
ghost use Rattle.lgx_check.specs.declared.error.CheckError.TheVariants.{Memory as no_memory};
ghost use Rattle.lgx_check.specs.declared.error.OperandError.TheVariants.{Code, Memory as no_memory_for_operand};

use lgx_num::Memory;
use lgx_rung::{CheckCode, CheckFault};
use std::alloc::{AllocError, AllocFailed};

/// Why a routine wasn't checked.
#[derive(Clone, Copy, PartialEq, Eq, Debug)]
pub enum CheckError {
    /// The first instruction at fault.
    Check(CheckFault),
    /// There was no memory.
    Memory,
}

impl From<Memory> for CheckError {
    ghost from_gives = { λ _ e. e ≡ no_memory };

    fn from(_: Memory) -> Self {
        CheckError::Memory
    }
}

impl From<AllocError> for CheckError {
    ghost from_gives = { λ _ e. e ≡ no_memory };

    fn from(_: AllocError) -> Self {
        CheckError::Memory
    }
}

impl<T: Drop> From<AllocFailed<T>> for CheckError {
    ghost from_gives = { λ _ e. e ≡ no_memory };

    fn from(_: AllocFailed<T>) -> Self {
        CheckError::Memory
    }
}

/// Why an operand stands for nothing.
#[derive(Clone, Copy, PartialEq, Eq, Debug)]
pub(crate) enum OperandError {
    Code(CheckCode),
    Memory,
}

impl From<CheckCode> for OperandError {
    ghost from_gives = { λ code e. e ≡ Code code };

    fn from(code: CheckCode) -> Self {
        OperandError::Code(code)
    }
}

impl From<Memory> for OperandError {
    ghost from_gives = { λ _ e. e ≡ no_memory_for_operand };

    fn from(_: Memory) -> Self {
        OperandError::Memory
    }
}

impl From<AllocError> for OperandError {
    ghost from_gives = { λ _ e. e ≡ no_memory_for_operand };

    fn from(_: AllocError) -> Self {
        OperandError::Memory
    }
}
