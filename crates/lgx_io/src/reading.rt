// Reading all that a reader has.
ghost use Rattle.std.specs.Prelude.{◌≡◌, ◌≤◌, ◌<◌, take, length, IfOk, IfErr, IfSome};
ghost use Rattle.std.specs.Io.KnownBytes.{Consumes, IsAtEnd};
ghost use Rattle.lgx_io.specs.Files.{IsCause, CameBefore};
ghost use Rattle.spec_base.specs.declared.limits.TheConstants.{MAX_FILE_BYTES};

use crate::files::FileFault;
use spec_base::limits::MAX_FILE_BYTES;
use std::alloc::Global;
use std::io::{ErrorKind, Read};

/// How many bytes are asked for at once.
const PIECE: usize = 16_384;

/// Reads once, and again after an interruption. `None` is a failure, also if each of 2^64 - 1 tries was
/// interrupted.
fn read_some<R: Read>(file: &mut R, piece: &mut [u8]) -> Option<usize>
    ensures bound { IfSome result (λ count. count ≤ length piece.new) }
    ensures bytes { IfSome result (λ count.
        Consumes (R.remaining file.old) (R.remaining file.new) (take count piece.new)) }
    ensures end { IfSome result (λ count. count ≡ 0 → 0 < length piece.old → IsAtEnd (R.remaining file.new)) }
{
    for _ in 0..u64::MAX {
        match file.read(piece) {
            Ok(count) => return Some(count),
            Err(error) => {
                if error.kind() != ErrorKind::Interrupted {
                    return None;
                }
            }
        }
    }
    None
}

/// All that a reader has left, in as many reads as it takes. A reader that has more than a file may is given
/// up at the read that shows it.
pub fn read_to_end<R: Read>(alloc: Global, file: &mut R) -> Result<Vec<u8>, FileFault>
    ensures ok { IfOk result (λ bytes. length bytes.items ≤ MAX_FILE_BYTES) }
    ensures whole { IfOk result (λ bytes.
        IfSome (R.remaining file.old) (λ contents. bytes.items ≡ contents)) }
    ensures cause { IfErr result (IsCause (R.remaining file.old)) }
    ensures came { IfErr result (CameBefore (R.remaining file.old) (R.remaining file.new)) }
{
    let mut bytes = Vec::new(alloc);
    let mut piece = [0u8; PIECE];
    for _ in 0..u64::MAX {
        let Some(count) = read_some(file, &mut piece) else {
            return Err(FileFault::Failed);
        };
        if count == 0 {
            return Ok(bytes);
        }
        let taken = bytes.len() + count;
        if taken > MAX_FILE_BYTES {
            return Err(FileFault::TooLong {
                taken: taken as u64,
            });
        }
        bytes.extend_from_slice(&piece[..count])?;
    }
    // Not reached: each turn took a byte or more, and the file is too long long before the turns end.
    Err(FileFault::Failed)
}
