// A reader as a file.
ghost use Rattle.std.specs.Prelude.{◌≡◌, [], List, ℕ, None, Some, true, false, is_some, IfSome};
ghost use Rattle.lgx_io.specs.Opened.{AddsName};

use crate::opened::{Open, OpenedFiles};
use std::alloc::Global;
use std::io::Read;
use std::marker::Model;
use std::snapshot::Snapshot;

/// What opens a reader as the file of each name, once.
#[derive(Drop)]
pub struct OnlyReader<R: Read> {
    reader: Option<R>,
    start: Snapshot<R>,
}

impl<R: Read> Model for OnlyReader<R> {
    ghost use Rattle.std.specs.Prelude.{◌≡◌, IfSome, is_some};
    ghost use Rattle.lgx_io.specs.Opened.{OnlyReaderState};

    ghost Value = { OnlyReaderState };

    ghost view = { λ o. record { contents = R.remaining o.start.value; is_left = is_some o.reader } };

    ghost invariant = { λ o. IfSome o.reader (λ reader. reader ≡ o.start.value) };
}

impl<R: Read + Drop> Open for OnlyReader<R> {
    type File = R;

    ghost contents = { λ o name. o.contents };

    ghost opened = { λ o. None };

    fn open(&mut self, name: &str) -> Option<R>
        ensures whole { IfSome result (λ file.
            IfSome self.old.contents (λ bytes. R.remaining file ≡ Some bytes)) }
        ensures opened { AddsName None None name.now }
        ensures same { (other : List ℕ) → self.new.contents ≡ self.old.contents }

        // Beside what each `Open` says: it is there the first time, and not again.
        ensures first { is_some result ≡ self.old.is_left }
        ensures later { self.new.is_left ≡ false }
    {
        let _ = name;
        self.reader.take()
    }
}

/// A reader, as standard input, that stands for the file of each name. Its contents are known if the reader's are: what it has left
/// when this is made. It is read once, and each later read is `Failed`.
///
/// The reader is owned: one behind a `&mut` gets no proof.
pub type Input<R> = OpenedFiles<OnlyReader<R>>;

impl<R: Read + Drop> Input<R> {
    /// What this reader has left, as a file; no read has failed.
    pub fn new(reader: R, alloc: Global) -> Self
        ensures { result ≡ record {
          opener = record { contents = R.remaining reader; is_left = true };
          failures = [];
        } }
    {
        let start = Snapshot::of(&reader);
        OpenedFiles::over(
            OnlyReader {
                reader: Some(reader),
                start,
            },
            alloc,
        )
    }
}
