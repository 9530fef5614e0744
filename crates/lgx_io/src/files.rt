// Files that are read whole, by what is known of their contents and by the reads that failed.
ghost use Rattle.std.specs.Prelude.{◌≡◌, ◌≤◌, ◌++◌, List, ℕ, Option, length, IfOk, IfErr, IfSome};
ghost use Rattle.lgx_io.specs.declared.files.FileFault.TheVariants.{Memory};
ghost use Rattle.lgx_io.specs.declared.files.ReadCause.{ReadCause};
ghost use Rattle.lgx_io.specs.Files.{added, IsCause};
ghost use Rattle.spec_base.specs.declared.limits.TheConstants.{MAX_FILE_BYTES};

use std::alloc::{AllocError, AllocFailed};

/// Why a read gave no contents.
#[derive(Clone, Copy, Debug, PartialEq, Eq)]
pub enum FileFault {
    /// The file isn't there or couldn't be read.
    Failed,

    /// The file is longer than `MAX_FILE_BYTES`. `taken` is the number of bytes that came before the read was
    /// given up.
    TooLong { taken: u64 },

    /// Out of memory. The object is as before.
    Memory,
}

/// Why a read is in the list of failures.
#[derive(Clone, Copy)]
pub enum ReadCause {
    Failed,
    TooLong,
}

impl From<AllocError> for FileFault {
    ghost from_gives = { λ _ e. e ≡ Memory };

    fn from(_: AllocError) -> Self {
        FileFault::Memory
    }
}

impl<T: Drop> From<AllocFailed<T>> for FileFault {
    ghost from_gives = { λ _ e. e ≡ Memory };

    fn from(_: AllocFailed<T>) -> Self {
        FileFault::Memory
    }
}

/// Files by name.
pub trait Files {
    /// The contents of the file of a name, if they are known.
    ghost told: { Self → List ℕ → Option (List ℕ) };

    /// The reads that failed or found too long a file, the oldest first: each by its name and its cause.
    ghost failures: { Self → List (List ℕ × ReadCause) };

    /// The whole file of this name, at most `MAX_FILE_BYTES` bytes.
    ///
    /// `Failed` and `TooLong` come only if this read was added to the list of failures, and nothing else is
    /// ever added to it. If the contents are known and are longer than the limit, the answer is `TooLong`, `Failed` or `Memory`.
    fn read(&mut self, name: &str) -> Result<Vec<u8>, FileFault>
        ensures ok { IfOk result (λ bytes. length bytes.items ≤ MAX_FILE_BYTES) }
        ensures whole { IfOk result (λ bytes.
            IfSome (told self.old name.now) (λ contents. bytes.items ≡ contents)) }
        ensures cause { IfErr result (IsCause (told self.old name.now)) }
        ensures failures { failures self.new ≡ failures self.old ++ added name.now result }
        ensures same { (other : List ℕ) → told self.new other ≡ told self.old other };
}

/// A read that failed, as the objects of this crate keep it.
#[derive(Drop)]
pub(crate) struct FailedRead {
    pub(crate) name: String,
    pub(crate) cause: ReadCause,
}
