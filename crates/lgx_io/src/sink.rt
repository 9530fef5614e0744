// A sink of bytes, by what it holds and by the count of its faults.
ghost use Rattle.std.specs.Prelude.{◌≡◌, ◌≤◌, List, ℕ, Option, OnOk, IsErrOf};
ghost use Rattle.std.specs.Io.KnownBytes.{Appends};
ghost use Rattle.lgx_io.specs.declared.sink.SinkFault.TheVariants.{Memory};
ghost use Rattle.lgx_io.specs.Sink.{FaultsRose, AppendsPart};

use std::alloc::{AllocError, AllocFailed};

/// Why a put didn't take the whole piece.
#[derive(Clone, Copy, Debug, PartialEq, Eq)]
pub enum SinkFault {
    /// The sink failed; a first part of the piece may have been taken.
    Failed,

    /// Out of memory. The object is as before.
    Memory,
}

impl From<AllocError> for SinkFault {
    ghost from_gives = { λ _ e. e ≡ Memory };

    fn from(_: AllocError) -> Self {
        SinkFault::Memory
    }
}

impl<T: Drop> From<AllocFailed<T>> for SinkFault {
    ghost from_gives = { λ _ e. e ≡ Memory };

    fn from(_: AllocFailed<T>) -> Self {
        SinkFault::Memory
    }
}

/// What takes pieces of bytes, one after another.
pub trait Sink {
    /// The bytes that it holds, if they are known.
    ghost held: { Self → Option (List ℕ) };

    /// How often a put failed; the count stops at 18,446,744,073,709,551,615.
    ghost faults: { Self → ℕ };

    /// Adds the whole piece.
    ///
    /// `Failed` comes only if the count of faults rose in this call, and then a first part of the piece was
    /// added, maybe none of it or all.
    fn put(&mut self, bytes: &[u8]) -> Result<(), SinkFault>
        ensures ok { OnOk result (Appends (held self.old) (held self.new) bytes.now) }
        ensures ok_faults { OnOk result (faults self.new ≡ faults self.old) }
        ensures failed { IsErrOf result SinkFault.Failed → FaultsRose (faults self.old) (faults self.new) }
        ensures part { IsErrOf result SinkFault.Failed → AppendsPart (held self.old) (held self.new) bytes.now }
        ensures memory { IsErrOf result SinkFault.Memory → held self.new ≡ held self.old }
        ensures no_fault { IsErrOf result SinkFault.Memory → faults self.new ≡ faults self.old }
        ensures later { faults self.old ≤ faults self.new };
}
