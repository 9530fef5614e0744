// Pieces of a text, added at its end.
ghost use Rattle.std.specs.Prelude.{◌≡◌, ◌++◌, OnOk, decimal};
ghost use Rattle.lgx_gen.specs.Listed.{comma_before, listed, numbered};

use itoa::Buffer;
use lgx_num::Memory;

/// Adds a piece and the decimal digits of a number.
pub(crate) fn push_numbered(text: &mut Vec<u8>, piece: &[u8], number: u32) -> Result<(), Memory>
    ensures { OnOk result (text.new.items ≡ text.old.items ++ piece.now ++ decimal number) }
{
    let mut digits = Buffer::new();
    text.extend_from_slice(piece)?;
    text.extend_from_slice(digits.format(number).as_bytes())?;
    Ok(())
}

/// Adds the comma before an element of a list; the one with number 0 has none.
pub(crate) fn push_comma(text: &mut Vec<u8>, number: u32) -> Result<(), Memory>
    ensures { OnOk result (text.new.items ≡ text.old.items ++ comma_before number) }
{
    if number > 0 {
        text.push(b',')?;
    }
    Ok(())
}

/// Adds a list whose elements are alike but for their numbers, which come between `before` and `after`.
pub(crate) fn push_listed(
    text: &mut Vec<u8>,
    count: u32,
    before: &[u8],
    after: &[u8],
) -> Result<(), Memory>
    ensures { OnOk result (text.new.items ≡ text.old.items ++ listed (numbered before.now after.now) count) }
{
    for number in 0..count {
        push_comma(text, number)?;
        push_numbered(text, before, number)?;
        text.extend_from_slice(after)?;
    }
    Ok(())
}
