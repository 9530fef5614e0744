// A line from a reader, byte by byte.
ghost use Rattle.std.specs.Prelude.{◌≡◌, ℕ, List, [], ◌∷◌, ◌++◌, true, false, Ok, OnOk};
ghost use Rattle.std.specs.Io.KnownBytes.{Consumes, IsAtEnd};
ghost use Rattle.spec_text.specs.TextLines.{without_return};
ghost use Rattle.lgx_live.specs.Piped.{kept, CameWhole, CameLast};

use crate::console::AskFault;
use spec_base::limits::MAX_LINE_BYTES;
use std::io::{ErrorKind, Read};

/// What comes next.
#[derive(Clone, Copy)]
pub(crate) enum Next {
    Byte(u8),
    End,
    Failed,
}

/// Reads a byte, and again after an interruption; also if each of 2^64 - 1 tries was interrupted it is a failure.
fn next_byte<R: Read>(reader: &mut R) -> Next
    ensures byte { (byte : ℕ) → result ≡ Next.Byte byte → Consumes (R.remaining reader.old) (R.remaining reader.new) (byte ∷ []) }
    ensures end { result ≡ Next.End → Consumes (R.remaining reader.old) (R.remaining reader.new) [] }
    ensures at_end { result ≡ Next.End → IsAtEnd (R.remaining reader.new) }
{
    let mut piece = [0u8; 1];
    for _ in 0..u64::MAX {
        match reader.read(&mut piece) {
            Ok(0) => return Next::End,
            Ok(_) => return Next::Byte(piece[0]),
            Err(error) => {
                if error.kind() != ErrorKind::Interrupted {
                    return Next::Failed;
                }
            }
        }
    }
    Next::Failed
}

/// Keeps a byte of a line, if there is room for it.
fn keep(line: &mut Vec<u8>, byte: u8) -> Result<(), AskFault>
    ensures { (raw : List ℕ) → line.old.items ≡ kept raw → OnOk result (line.new.items ≡ kept (raw ++ byte ∷ [])) }
{
    if line.len() < MAX_LINE_BYTES + 2 {
        match line.push(byte) {
            Ok(()) => Ok(()),
            Err(_) => Err(AskFault::Memory),
        }
    } else {
        Ok(())
    }
}

/// Reads up to a line feed, or to the end: `true` if a line feed came. As much of the line as may matter is in `line` then.
pub(crate) fn read_line<R: Read>(reader: &mut R, line: &mut Vec<u8>) -> Result<bool, AskFault>
    ensures whole { result ≡ Ok true → CameWhole (R.remaining reader.old) (R.remaining reader.new) line.new.items }
    ensures last { result ≡ Ok false → CameLast (R.remaining reader.old) (R.remaining reader.new) line.new.items }
{
    line.clear();
    for _ in 0..u64::MAX {
        match next_byte(reader) {
            Next::Byte(byte) => {
                if byte == b'\n' {
                    return Ok(true);
                }
                match keep(line, byte) {
                    Ok(()) => {}
                    Err(fault) => return Err(fault),
                }
            }
            Next::End => return Ok(false),
            Next::Failed => return Err(AskFault::Failed),
        }
    }
    Err(AskFault::Failed)
}
