// Numbers and words, added to a text without memory of their own.
ghost use Rattle.std.specs.Prelude.{◌≡◌, ◌+◌, ◌<◌, ◌≤◌, ◌∷◌, ◌++◌, length, drop, OnOk};
ghost use Rattle.std.specs.Fmt.{decimal, signed_decimal};
ghost use Rattle.lgx_watch.specs.declared.digits.TheConstants.{PAIR_ROOM};

use itoa::{Buffer, write_digits};
use lgx_num::Memory;

/// The bytes of a space and the longest number.
const COUNT_ROOM: usize = 21;

/// The bytes of two of the longest numbers of 32 bits, with a space between them.
pub(crate) const PAIR_ROOM: usize = 21;

/// Adds the decimal digits of a number.
#[inline]
pub(crate) fn push_number(text: &mut Vec<u8>, number: u64) -> Result<(), Memory>
    ensures { OnOk result (text.new.items ≡ text.old.items ++ decimal number) }
{
    let mut digits = Buffer::new();
    text.extend_from_slice(digits.format(number).as_bytes())?;
    Ok(())
}

/// Writes a space before the bytes from `end` on, and answers where it is.
#[inline(always)]
pub(crate) fn write_space(bytes: &mut [u8], end: usize) -> usize
    requires { (0 < end) × (end ≤ length bytes.old) }
    ensures start { result + 1 ≡ end }
    ensures written { drop result bytes.new ≡ 32 ∷ drop end bytes.old }
{
    bytes[end - 1] = b' ';
    end - 1
}

/// Adds two numbers with a space between them, and what is in the bytes after the first [`PAIR_ROOM`]. The numbers are written over
/// those, so that all is added at once.
#[inline]
pub(crate) fn push_pair(
    text: &mut Vec<u8>,
    first: u32,
    second: u32,
    bytes: &mut [u8],
) -> Result<(), Memory>
    requires { PAIR_ROOM ≤ length bytes.old }
    ensures { OnOk result (text.new.items ≡ text.old.items ++ decimal first ++ 32 ∷ decimal second ++ drop PAIR_ROOM bytes.old) }
{
    let after = write_digits(u64::from(second), bytes, PAIR_ROOM);
    let space = write_space(bytes, after);
    let start = write_digits(u64::from(first), bytes, space);
    text.extend_from_slice(&bytes[start..])?;
    Ok(())
}

/// Adds a space and a word.
#[inline]
pub fn push_word(text: &mut Vec<u8>, word: &[u8]) -> Result<(), Memory>
    ensures { OnOk result (text.new.items ≡ text.old.items ++ 32 ∷ word.now) }
{
    text.push(b' ')?;
    text.extend_from_slice(word)?;
    Ok(())
}

/// Adds a space and a number.
#[inline]
pub fn push_count(text: &mut Vec<u8>, number: u64) -> Result<(), Memory>
    ensures { OnOk result (text.new.items ≡ text.old.items ++ 32 ∷ decimal number) }
{
    let mut bytes = [0; COUNT_ROOM];
    let after = write_digits(number, &mut bytes, COUNT_ROOM);
    let space = write_space(&mut bytes, after);
    text.extend_from_slice(&bytes[space..])?;
    Ok(())
}

/// Adds a space and a value, with a minus sign if it is negative.
#[inline]
pub(crate) fn push_value(text: &mut Vec<u8>, value: i32) -> Result<(), Memory>
    ensures { OnOk result (text.new.items ≡ text.old.items ++ 32 ∷ signed_decimal value) }
{
    let mut digits = Buffer::new();
    text.push(b' ')?;
    text.extend_from_slice(digits.format(value).as_bytes())?;
    Ok(())
}
