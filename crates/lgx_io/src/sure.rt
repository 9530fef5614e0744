// Files and a sink in memory that never fail.
ghost use Rattle.std.specs.Prelude.{◌≡◌, ◌≤◌, ◌++◌, [], List, ℕ, Some, length, OnOk, IfOk, IfErr, IfSome, IsErrOf};
ghost use Rattle.std.specs.Io.KnownBytes.{Appends};
ghost use Rattle.lgx_io.specs.Files.{added, IsCause};
ghost use Rattle.lgx_io.specs.Sink.{FaultsRose, AppendsPart};
ghost use Rattle.lgx_io.specs.Memory.{stored, contents_or_empty, whole_or_too_long, too_long_reads, AnswersBytes};
ghost use Rattle.spec_base.specs.declared.limits.TheConstants.{MAX_FILE_BYTES};

use crate::files::{FileFault, Files};
use crate::memory::{find_contents, whole_or_too_long};
use crate::sink::{Sink, SinkFault};
use std::alloc::Global;
use std::marker::Model;

/// Files in memory that never answer `Failed`, and whose contents are known. A name that isn't there has none.
#[derive(Drop)]
pub struct SureFiles {
    alloc: Global,
    files: Vec<(String, Vec<u8>)>,
    too_long: Vec<String>,
}

impl Model for SureFiles {
    ghost use Rattle.std.specs.Prelude.{map, string_bytes};
    ghost use Rattle.lgx_io.specs.Memory.{SureFilesState, stored};

    ghost Value = { SureFilesState };

    ghost view = { λ m. record { files = stored m.files.items; too_long = map (λ n. string_bytes n) m.too_long.items } };
}

impl SureFiles {
    /// Files that are pairs of a name and contents; of several of one name the first counts.
    pub fn new(alloc: Global, files: Vec<(String, Vec<u8>)>) -> Self
        ensures { result ≡ record { files = stored files.items; too_long = [] } }
    {
        SureFiles {
            alloc,
            files,
            too_long: Vec::new(alloc),
        }
    }
}

impl Files for SureFiles {
    ghost told = { λ m name. Some (contents_or_empty m.files name) };

    ghost failures = { λ m. too_long_reads m.too_long };

    fn read(&mut self, name: &str) -> Result<Vec<u8>, FileFault>
        ensures ok { IfOk result (λ bytes. length bytes.items ≤ MAX_FILE_BYTES) }
        ensures whole { IfOk result (λ bytes.
            IfSome (Some (contents_or_empty self.old.files name.now)) (λ contents. bytes.items ≡ contents)) }
        ensures cause { IfErr result (IsCause (Some (contents_or_empty self.old.files name.now))) }
        ensures failures { too_long_reads self.new.too_long ≡ too_long_reads self.old.too_long ++ added name.now result }
        ensures same { (other : List ℕ) →
            Some (contents_or_empty self.new.files other) ≡ Some (contents_or_empty self.old.files other) }

        // Beside what each `Files` says: which answer it is, that it is never `Failed`, and that the files stay.
        ensures answer { AnswersBytes result (whole_or_too_long (contents_or_empty self.old.files name.now)) }
        ensures sure { ¬ IsErrOf result FileFault.Failed }
        ensures files { self.new.files ≡ self.old.files }
    {
        let Some(contents) = find_contents(&self.files, name) else {
            return Ok(Vec::new(self.alloc));
        };
        let answer = whole_or_too_long(self.alloc, contents);
        if let Err(FileFault::TooLong { .. }) = &answer {
            let name = String::from_str(self.alloc, name)?;
            self.too_long.push(name)?;
        }
        answer
    }
}

/// A sink in memory that never answers `Failed`, seen as the bytes that it holds. Its count of faults is 0.
#[derive(Drop)]
pub struct SureSink {
    held: Vec<u8>,
}

impl Model for SureSink {
    ghost use Rattle.std.specs.Prelude.{List, ℕ};

    ghost Value = { List ℕ };

    ghost view = { λ s. s.held.items };
}

impl SureSink {
    /// A sink that holds nothing.
    pub fn new(alloc: Global) -> Self
        ensures { result ≡ [] }
    {
        SureSink {
            held: Vec::new(alloc),
        }
    }

    /// The bytes that it holds.
    pub fn held(&self) -> &[u8]
        ensures { result.now ≡ self.now }
    {
        &self.held
    }
}

impl Sink for SureSink {
    ghost held = { λ s. Some s };

    ghost faults = { λ s. 0 };

    fn put(&mut self, bytes: &[u8]) -> Result<(), SinkFault>
        ensures ok { OnOk result (Appends (Some self.old) (Some self.new) bytes.now) }
        ensures memory { IsErrOf result SinkFault.Memory → Some self.new ≡ Some self.old }

        // Beside what each `Sink` says: it never fails.
        ensures sure { ¬ IsErrOf result SinkFault.Failed }
    {
        self.held.extend_from_slice(bytes)?;
        Ok(())
    }
}
