// Files that are opened by name and read to their end.
ghost use Rattle.std.specs.Prelude.{◌≡◌, ◌≤◌, ◌++◌, [], List, ℕ, Option, Some, length, IfOk, IfErr, IfSome};
ghost use Rattle.lgx_io.specs.Files.{added, IsCause};
ghost use Rattle.lgx_io.specs.Opened.{AddsName, OpensOnce};
ghost use Rattle.spec_base.specs.declared.limits.TheConstants.{MAX_FILE_BYTES};

use crate::files::{FailedRead, FileFault, Files, ReadCause};
use crate::reading::read_to_end;
use std::alloc::Global;
use std::io::Read;
use std::marker::Model;

/// What opens files by their names.
pub trait Open {
    /// An open file, of which nothing was read.
    type File: Read + Drop;

    /// The contents of the file of a name, if they are known.
    ghost contents: { Self → List ℕ → Option (List ℕ) };

    /// The names that were opened, the oldest first, if they are known.
    ghost opened: { Self → Option (List (List ℕ)) };

    /// The file of this name. `None` if it isn't there or couldn't be opened.
    fn open(&mut self, name: &str) -> Option<Self::File>
        ensures whole { IfSome result (λ file.
            IfSome (contents self.old name.now) (λ bytes. Self.File.remaining file ≡ Some bytes)) }
        ensures opened { AddsName (opened self.old) (opened self.new) name.now }
        ensures same { (other : List ℕ) → contents self.new other ≡ contents self.old other };
}

/// Files that are opened by name. Their contents are known if their opener's are.
#[derive(Drop)]
pub struct OpenedFiles<O: Open> {
    opener: O,
    alloc: Global,
    failures: Vec<FailedRead>,
}

impl<O: Open> Model for OpenedFiles<O> {
    ghost use Rattle.lgx_io.specs.Opened.{OpenedState};
    ghost use Rattle.lgx_io.specs.Memory.{failed_reads};

    ghost Value = { OpenedState O };

    ghost view = { λ f. record { opener = f.opener; failures = failed_reads f.failures.items } };
}

impl<O: Open> OpenedFiles<O> {
    /// The files that this opens; no read has failed.
    pub fn over(opener: O, alloc: Global) -> Self
        ensures { result ≡ record { opener = opener; failures = [] } }
    {
        OpenedFiles {
            opener,
            alloc,
            failures: Vec::new(alloc),
        }
    }
}

/// The whole file of a name.
fn read_file<O: Open>(opener: &mut O, alloc: Global, name: &str) -> Result<Vec<u8>, FileFault>
    ensures ok { IfOk result (λ bytes. length bytes.items ≤ MAX_FILE_BYTES) }
    ensures whole { IfOk result (λ bytes.
        IfSome (O.contents opener.old name.now) (λ contents. bytes.items ≡ contents)) }
    ensures cause { IfErr result (IsCause (O.contents opener.old name.now)) }
    ensures opened { AddsName (O.opened opener.old) (O.opened opener.new) name.now }
    ensures same { (other : List ℕ) → O.contents opener.new other ≡ O.contents opener.old other }
{
    match opener.open(name) {
        Some(mut file) => read_to_end(alloc, &mut file),
        None => Err(FileFault::Failed),
    }
}

impl<O: Open> Files for OpenedFiles<O> {
    ghost told = { λ f. O.contents f.opener };

    ghost failures = { λ f. f.failures };

    fn read(&mut self, name: &str) -> Result<Vec<u8>, FileFault>
        ensures ok { IfOk result (λ bytes. length bytes.items ≤ MAX_FILE_BYTES) }
        ensures whole { IfOk result (λ bytes.
            IfSome (O.contents self.old.opener name.now) (λ contents. bytes.items ≡ contents)) }
        ensures cause { IfErr result (IsCause (O.contents self.old.opener name.now)) }
        ensures failures { self.new.failures ≡ self.old.failures ++ added name.now result }
        ensures same { (other : List ℕ) → O.contents self.new.opener other ≡ O.contents self.old.opener other }

        // Beside what each `Files` says: which names were opened.
        ensures opened { OpensOnce (O.opened self.old.opener) (O.opened self.new.opener) name.now result }
    {
        // The room comes before the file is opened, so that each failure is noted.
        let key = String::from_str(self.alloc, name)?;
        self.failures.reserve(1)?;
        let answer = read_file(&mut self.opener, self.alloc, name);
        let cause = match &answer {
            Err(FileFault::Failed) => ReadCause::Failed,
            Err(FileFault::TooLong { .. }) => ReadCause::TooLong,
            Ok(_) | Err(FileFault::Memory) => return answer,
        };
        match self.failures.push(FailedRead { name: key, cause }) {
            Ok(()) => answer,
            Err(_) => unreachable!(),
        }
    }
}
