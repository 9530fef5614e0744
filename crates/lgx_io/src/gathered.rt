// A sink over a writer, which gathers what is put and writes it in large pieces.
ghost use Rattle.std.specs.Prelude.{◌≡◌, ◌≢◌, ◌≤◌, [], OnOk, IsErrOf, is_ok, if◌then◌else◌};
ghost use Rattle.std.specs.Bool.{OnTrue, OnFalse};
ghost use Rattle.std.specs.Io.Buffered.{writer_inner, writer_buffer};
ghost use Rattle.std.specs.Io.KnownBytes.{Appends, Keeps};
ghost use Rattle.lgx_io.specs.Gathered.{held_by};
ghost use Rattle.lgx_io.specs.Sink.{next_count, FaultsRose, AppendsPart};

use crate::sink::{Sink, SinkFault};
use std::io::{BufWriter, ErrorKind, Write};
use std::marker::Model;

/// Writes all of the bytes, in as many writes as it takes, and answers whether that succeeded. An interrupted
/// write is made again; one that takes nothing is a failure, and so is the end of 2^64 - 1 writes.
pub fn write_all<W: Write>(writer: &mut W, bytes: &[u8]) -> bool
    ensures all { OnTrue result (Appends (W.contents writer.old) (W.contents writer.new) bytes.now) }
    ensures part { OnFalse result (AppendsPart (W.contents writer.old) (W.contents writer.new) bytes.now) }
{
    let mut rest = bytes;
    for _ in 0..u64::MAX {
        if rest.is_empty() {
            return true;
        }
        match writer.write(rest) {
            Ok(0) => return false,
            Ok(count) => rest = &rest[count..],
            Err(error) => {
                if error.kind() != ErrorKind::Interrupted {
                    return false;
                }
            }
        }
    }
    false
}

/// A sink that gathers what is put, and writes it if there is no more room, and at [`Gathered::finish`]. What it holds is known if
/// what its writer holds is.
///
/// After the first fault it never writes again but when it is dropped: a `BufWriter` that is dropped tries to
/// write what it has left, and nobody hears of a fault then.
#[derive(Drop)]
pub struct Gathered<W: Write + Drop> {
    writer: BufWriter<W>,
    faults: u64,
}

impl<W: Write + Drop> Model for Gathered<W> {
    ghost use Rattle.std.specs.Io.Buffered.{writer_inner, writer_buffer};
    ghost use Rattle.lgx_io.specs.Gathered.{GatheredState};

    ghost Value = { GatheredState };

    ghost view = { λ g. record {
      written = W.contents (writer_inner g.writer);
      waiting = writer_buffer g.writer;
      faults = g.faults;
    } };
}

impl<W: Write + Drop> Gathered<W> {
    /// Gathers as many bytes as the writer has room for; with no room each piece is written at once.
    pub fn over(writer: BufWriter<W>) -> Self
        ensures { result ≡ record {
          written = W.contents (writer_inner writer);
          waiting = writer_buffer writer;
          faults = 0;
        } }
    {
        Gathered { writer, faults: 0 }
    }

    /// Writes what waits, and flushes the writer.
    ///
    /// `Failed` comes if that fails or an earlier call failed, and counts as a fault; what it holds is as before.
    pub fn finish(&mut self) -> Result<(), SinkFault>
        ensures written { OnOk result (self.new.waiting ≡ []) }
        ensures same { Keeps (held_by self.old) (held_by self.new) }
        ensures counted { self.new.faults ≡
            (if is_ok result then self.old.faults else next_count self.old.faults) }
        ensures stays_failed { self.old.faults ≢ 0 → IsErrOf result SinkFault.Failed }
        ensures no_memory { ¬ IsErrOf result SinkFault.Memory }
    {
        if self.faults == 0 && self.writer.flush().is_ok() {
            return Ok(());
        }
        self.faults = self.faults.saturating_add(1);
        Err(SinkFault::Failed)
    }
}

impl<W: Write + Drop> Sink for Gathered<W> {
    ghost held = { λ g. held_by g };

    ghost faults = { λ g. g.faults };

    fn put(&mut self, bytes: &[u8]) -> Result<(), SinkFault>
        ensures ok { OnOk result (Appends (held_by self.old) (held_by self.new) bytes.now) }
        ensures ok_faults { OnOk result (self.new.faults ≡ self.old.faults) }
        ensures failed { IsErrOf result SinkFault.Failed → FaultsRose self.old.faults self.new.faults }
        ensures part { IsErrOf result SinkFault.Failed →
            AppendsPart (held_by self.old) (held_by self.new) bytes.now }
        ensures memory { IsErrOf result SinkFault.Memory → held_by self.new ≡ held_by self.old }
        ensures no_fault { IsErrOf result SinkFault.Memory → self.new.faults ≡ self.old.faults }
        ensures later { self.old.faults ≤ self.new.faults }

        // Beside what each `Sink` says: one fault is counted for each call that fails, after a fault every call
        // fails, and it is never out of memory.
        ensures counted { self.new.faults ≡
            (if is_ok result then self.old.faults else next_count self.old.faults) }
        ensures stays_failed { self.old.faults ≢ 0 → IsErrOf result SinkFault.Failed }
        ensures no_memory { ¬ IsErrOf result SinkFault.Memory }
    {
        if self.faults == 0 && write_all(&mut self.writer, bytes) {
            return Ok(());
        }
        self.faults = self.faults.saturating_add(1);
        Err(SinkFault::Failed)
    }
}
