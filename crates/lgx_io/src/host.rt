// The files and the standard output of the system.
ghost use Rattle.std.specs.Prelude.{◌≡◌, [], None};
ghost use Rattle.std.specs.Io.Buffered.{writer_buffer};

use crate::gathered::Gathered;
use crate::opened::{Open, OpenedFiles};
use std::alloc::Global;
use std::fs::File;
use std::io::{self, BufWriter, Print, Printer};
use std::rt::Files as FileAccess;

/// How many bytes are gathered before they are written.
const GATHERED_BYTES: usize = 65_536;

/// What opens the files of the system by their paths. Nothing is known of their contents.
#[derive(Drop)]
pub struct HostOpener<'a, R: FileAccess> {
    rt: &'a R,
}

impl<'a, R: FileAccess> Open for HostOpener<'a, R> {
    type File = R::File;

    ghost contents = { λ o name. None };

    ghost opened = { λ o. None };

    fn open(&mut self, name: &str) -> Option<R::File> {
        File::open(self.rt, name).ok()
    }
}

/// The files of the system by their paths. Nothing is known of their contents.
pub type HostFiles<'a, R> = OpenedFiles<HostOpener<'a, R>>;

impl<'a, R: FileAccess> HostFiles<'a, R> {
    /// The files that this runtime opens; no read has failed.
    pub fn new(rt: &'a R, alloc: Global) -> Self
        ensures { result.failures ≡ [] }
    {
        OpenedFiles::over(HostOpener { rt }, alloc)
    }
}

/// Standard output. Nothing is known of what is written. It gathers 65,536 bytes at a time; if there is no memory for that, each
/// piece is written at once.
pub type HostSink<'a, P> = Gathered<Printer<'a, P>>;

impl<'a, P: Print> HostSink<'a, P> {
    /// Standard output; nothing waits, and there is no fault. The memory for what is gathered is taken here, and
    /// none later.
    pub fn new(rt: &'a P, alloc: Global) -> Self
        ensures { result ≡ record { written = None; waiting = []; faults = 0 } }
    {
        Gathered::over(writer(rt, alloc))
    }
}

/// A writer to standard output that gathers, if there is memory for it.
fn writer<P: Print>(rt: &P, alloc: Global) -> BufWriter<Printer<'_, P>>
    ensures empty { writer_buffer result ≡ [] }
{
    if let Ok(gathering) = BufWriter::with_capacity(alloc, GATHERED_BYTES, io::writer(rt)) {
        return gathering;
    }
    match BufWriter::with_capacity(alloc, 0, io::writer(rt)) {
        Ok(plain) => plain,
        Err(_) => unreachable!(),
    }
}
