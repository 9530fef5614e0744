// Files and a sink in memory, whose calls fail by a list.
ghost use Rattle.std.specs.Prelude.{◌≡◌, ◌≤◌, ◌++◌, [], ◌∷◌, List, ℕ, Some, None, take, length, option_map, OnOk, OnErr, IfOk, IfErr, IfSome, IsErrOf, IsSomeAnd, find, option_copied, string_bytes};
ghost use Rattle.std.specs.Str.{bytes_eq};
ghost use Rattle.std.specs.Io.KnownBytes.{Appends};
ghost use Rattle.lgx_io.specs.declared.files.ReadCause.TheVariants as cause;
ghost use Rattle.lgx_io.specs.Files.{added, IsCause};
ghost use Rattle.lgx_io.specs.Sink.{next_count, FaultsRose, AppendsPart};
ghost use Rattle.lgx_io.specs.Memory.{stored, failed_reads, contents_at, AnswersBytes, whole_or_too_long, fails_next, read_answer, calls_after, kept_next};
ghost use Rattle.spec_base.specs.declared.limits.TheConstants.{MAX_FILE_BYTES};

use crate::files::{FailedRead, FileFault, Files, ReadCause};
use crate::sink::{Sink, SinkFault};
use spec_base::limits::MAX_FILE_BYTES;
use std::alloc::{AllocError, Global};
use std::marker::Model;

/// The first entry of a name.
fn find_entry<'a>(files: &'a [(String, Vec<u8>)], name: &str) -> Option<&'a (String, Vec<u8>)>
    ensures { option_copied result ≡ find (λ file. bytes_eq (string_bytes file.0) name.now) files.now }
{
    files.iter().find(|file| file.0.as_str() == name)
}

/// The contents of a name; of several entries of one name the first counts.
pub(crate) fn find_contents<'a>(files: &'a [(String, Vec<u8>)], name: &str) -> Option<&'a Vec<u8>>
    ensures { option_map (λ contents. contents.now.items) result ≡ contents_at (stored files.now) name.now }
{
    match find_entry(files, name) {
        Some(file) => Some(&file.1),
        None => None,
    }
}

/// All of the contents, unless they are too long.
pub(crate) fn whole_or_too_long(alloc: Global, contents: &[u8]) -> Result<Vec<u8>, FileFault>
    ensures { AnswersBytes result (whole_or_too_long contents.now) }
{
    let taken = contents.len();
    if taken > MAX_FILE_BYTES {
        return Err(FileFault::TooLong {
            taken: taken as u64,
        });
    }
    Ok(contents.to_vec(alloc)?)
}

/// Notes a read that failed.
fn note_failure(
    failures: &mut Vec<FailedRead>,
    alloc: Global,
    name: &str,
    cause: ReadCause,
) -> Result<(), AllocError>
    ensures ok { OnOk result
        (failed_reads failures.new.items ≡ failed_reads failures.old.items ++ (name.now, cause) ∷ []) }
    ensures err { OnErr result (failures.new.items ≡ failures.old.items) }
{
    let name = String::from_str(alloc, name)?;
    failures.push(FailedRead { name, cause })?;
    Ok(())
}

/// Files in memory, whose contents are known. Each call whose number is listed fails, and so does a read of a name that isn't
/// there.
///
/// Calls are counted from 1. A call that answers `Memory` leaves the object as before and isn't counted.
#[derive(Drop)]
pub struct MemFiles {
    alloc: Global,
    files: Vec<(String, Vec<u8>)>,
    failing: Vec<u32>,
    calls: u64,
    failures: Vec<FailedRead>,
}

impl Model for MemFiles {
    ghost use Rattle.lgx_io.specs.Memory.{MemFilesState, stored, failed_reads};

    ghost Value = { MemFilesState };

    ghost view = { λ m. record {
      files = stored m.files.items;
      failing = m.failing.items;
      calls = m.calls;
      failures = failed_reads m.failures.items;
    } };
}

impl MemFiles {
    /// Files that are pairs of a name and contents; of several of one name the first counts. `failing` has the
    /// numbers of the calls that fail, counted from 1.
    pub fn new(alloc: Global, files: Vec<(String, Vec<u8>)>, failing: Vec<u32>) -> Self
        ensures { result ≡ record { files = stored files.items; failing = failing.items; calls = 0; failures = [] } }
    {
        MemFiles {
            alloc,
            files,
            failing,
            calls: 0,
            failures: Vec::new(alloc),
        }
    }

    fn fails_next(&self) -> bool
        ensures { result ≡ fails_next self.now }
    {
        let call = self.calls.saturating_add(1);
        self.failing.iter().any(|number| u64::from(*number) == call)
    }

    fn answer(&self, name: &str) -> Result<Vec<u8>, FileFault>
        ensures { AnswersBytes result (read_answer self.now name.now) }
    {
        if self.fails_next() {
            return Err(FileFault::Failed);
        }
        match find_contents(&self.files, name) {
            Some(contents) => whole_or_too_long(self.alloc, contents),
            None => Err(FileFault::Failed),
        }
    }
}

impl Files for MemFiles {
    ghost told = { λ m name. contents_at m.files name };

    ghost failures = { λ m. m.failures };

    fn read(&mut self, name: &str) -> Result<Vec<u8>, FileFault>
        ensures ok { IfOk result (λ bytes. length bytes.items ≤ MAX_FILE_BYTES) }
        ensures whole { IfOk result (λ bytes.
            IfSome (contents_at self.old.files name.now) (λ contents. bytes.items ≡ contents)) }
        ensures cause { IfErr result (IsCause (contents_at self.old.files name.now)) }
        ensures failures { self.new.failures ≡ self.old.failures ++ added name.now result }
        ensures same { (other : List ℕ) → contents_at self.new.files other ≡ contents_at self.old.files other }

        // Beside what each `Files` says: which answer it is, and what the object then is.
        ensures answer { AnswersBytes result (read_answer self.old name.now) }
        ensures after { self.new ≡ record self.old {
          calls = calls_after self.old.calls result;
          failures = self.old.failures ++ added name.now result;
        } }
    {
        let answer = self.answer(name);
        match &answer {
            Ok(_) => {}
            Err(FileFault::Failed) => {
                note_failure(&mut self.failures, self.alloc, name, ReadCause::Failed)?;
            }
            Err(FileFault::TooLong { .. }) => {
                note_failure(&mut self.failures, self.alloc, name, ReadCause::TooLong)?;
            }
            Err(FileFault::Memory) => return answer,
        }
        self.calls = self.calls.saturating_add(1);
        answer
    }
}

/// A sink in memory. What it holds is known, and it fails at the calls that it was given.
///
/// Calls are counted from 1. A call that answers `Memory` leaves the object as before and isn't counted.
#[derive(Drop)]
pub struct MemSink {
    held: Vec<u8>,
    failing: Vec<(u32, u32)>,
    calls: u64,
    faults: u64,
}

impl Model for MemSink {
    ghost use Rattle.lgx_io.specs.Memory.{MemSinkState};

    ghost Value = { MemSinkState };

    ghost view = { λ s. record {
      held = s.held.items;
      failing = s.failing.items;
      calls = s.calls;
      faults = s.faults;
    } };
}

impl MemSink {
    /// A sink that holds nothing. A pair (n, k) of `failing` has the nth call fail, the first being 1, after k bytes
    /// of its piece were kept, or all of them where the piece is shorter; of several pairs with one n the first
    /// counts.
    pub fn new(alloc: Global, failing: Vec<(u32, u32)>) -> Self
        ensures { result ≡ record { held = []; failing = failing.items; calls = 0; faults = 0 } }
    {
        MemSink {
            held: Vec::new(alloc),
            failing,
            calls: 0,
            faults: 0,
        }
    }

    /// The bytes that it holds.
    pub fn held(&self) -> &[u8]
        ensures { result.now ≡ self.now.held }
    {
        &self.held
    }

    fn kept_next(&self) -> Option<usize>
        ensures { result ≡ kept_next self.now }
    {
        let call = self.calls.saturating_add(1);
        self.failing
            .iter()
            .find(|pair| u64::from(pair.0) == call)
            .map(|pair| pair.1 as usize)
    }
}

impl Sink for MemSink {
    ghost held = { λ s. Some s.held };

    ghost faults = { λ s. s.faults };

    fn put(&mut self, bytes: &[u8]) -> Result<(), SinkFault>
        ensures ok { OnOk result (Appends (Some self.old.held) (Some self.new.held) bytes.now) }
        ensures ok_faults { OnOk result (self.new.faults ≡ self.old.faults) }
        ensures failed { IsErrOf result SinkFault.Failed → FaultsRose self.old.faults self.new.faults }
        ensures part { IsErrOf result SinkFault.Failed →
            AppendsPart (Some self.old.held) (Some self.new.held) bytes.now }
        ensures memory { IsErrOf result SinkFault.Memory → Some self.new.held ≡ Some self.old.held }
        ensures no_fault { IsErrOf result SinkFault.Memory → self.new.faults ≡ self.old.faults }
        ensures later { self.old.faults ≤ self.new.faults }

        // Beside what each `Sink` says: at which calls it fails, and what the object then is.
        ensures ok_unlisted { OnOk result (kept_next self.old ≡ None) }
        ensures ok_after { OnOk result (self.new ≡ record self.old {
          held = self.old.held ++ bytes.now;
          calls = next_count self.old.calls;
        }) }
        ensures failed_after { IsErrOf result SinkFault.Failed → IsSomeAnd (kept_next self.old) (λ kept.
            self.new ≡ record self.old {
              held = self.old.held ++ take kept bytes.now;
              calls = next_count self.old.calls;
              faults = next_count self.old.faults;
            }) }
        ensures memory_after { IsErrOf result SinkFault.Memory → self.new ≡ self.old }
    {
        match self.kept_next() {
            None => self.held.extend_from_slice(bytes)?,
            Some(kept) => {
                let kept = kept.min(bytes.len());
                self.held.extend_from_slice(&bytes[..kept])?;
                self.faults = self.faults.saturating_add(1);
                self.calls = self.calls.saturating_add(1);
                return Err(SinkFault::Failed);
            }
        }
        self.calls = self.calls.saturating_add(1);
        Ok(())
    }
}
