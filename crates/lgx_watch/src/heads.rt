// Words and numbers written one before another, from the last word of a line to its first.
ghost use Rattle.std.specs.Prelude.{◌≡◌, ◌+◌, ◌<◌, ◌≤◌, ◌∷◌, ◌++◌, length, drop, OnOk};
ghost use Rattle.std.specs.Fmt.{decimal, signed_decimal};

use crate::digits::write_space;
use itoa::write_digits;
use lgx_num::Memory;

/// Writes a space and a word before the bytes from `end` on, and answers where they start.
#[inline(always)]
pub(crate) fn write_word(bytes: &mut [u8], end: usize, word: &[u8]) -> usize
    requires { (length word.now < end) × (end ≤ length bytes.old) }
    ensures start { result + 1 + length word.now ≡ end }
    ensures written { drop result bytes.new ≡ 32 ∷ word.now ++ drop end bytes.old }
{
    let start = end - word.len();
    bytes[start..end].copy_from_slice(word);
    write_space(bytes, start)
}

/// Writes a space and a number before the bytes from `end` on, and answers where they start.
#[inline(always)]
pub(crate) fn write_count(bytes: &mut [u8], end: usize, number: u32) -> usize
    requires { (11 ≤ end) × (end ≤ length bytes.old) }
    ensures start { (result < end) × (end ≤ result + 11) }
    ensures written { drop result bytes.new ≡ 32 ∷ decimal number ++ drop end bytes.old }
{
    let after = write_digits(u64::from(number), bytes, end);
    write_space(bytes, after)
}

/// Writes a space and a value, with a minus sign if it is negative, before the bytes from `end` on, and answers where they start.
#[inline(always)]
pub(crate) fn write_value(bytes: &mut [u8], end: usize, value: i32) -> usize
    requires { (12 ≤ end) × (end ≤ length bytes.old) }
    ensures start { (result < end) × (end ≤ result + 12) }
    ensures written { drop result bytes.new ≡ 32 ∷ signed_decimal value ++ drop end bytes.old }
{
    let after = write_digits(u64::from(value.unsigned_abs()), bytes, end);
    if value >= 0 {
        return write_space(bytes, after);
    }
    let sign = after - 1;
    bytes[sign] = b'-';
    write_space(bytes, sign)
}

/// Writes the tick, the number of steps and the first word of a line before the bytes from `end` on, and adds all of them at once.
#[inline(always)]
pub(crate) fn push_head(
    text: &mut Vec<u8>,
    tick: u32,
    step: u32,
    word: &[u8],
    bytes: &mut [u8],
    end: usize,
) -> Result<(), Memory>
    requires { (length word.now + 22 ≤ end) × (end ≤ length bytes.old) }
    ensures { OnOk result (text.new.items ≡ text.old.items ++ decimal tick ++ 32 ∷ decimal step ++ 32 ∷ word.now ++ drop end bytes.old) }
{
    let words = write_word(bytes, end, word);
    let steps = write_count(bytes, words, step);
    let start = write_digits(u64::from(tick), bytes, steps);
    text.extend_from_slice(&bytes[start..])?;
    Ok(())
}
