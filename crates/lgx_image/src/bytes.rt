// Numbers in the bytes of an image, and where subscripts lead.
ghost use Rattle.std.specs.Prelude.{◌≡◌, ◌≢◌, ◌+◌, ◌*◌, ◌/◌, ◌<◌, ◌≤◌, ◌==◌, true, false, not, length, slice_index, slice_set};
ghost use Rattle.spec_base.specs.declared.limits.TheConstants.{MAX_IMAGE_BYTES};
ghost use Rattle.lgx_num.specs.Image.{number, number_of, write, write_of, piece, splice, InBounds, step_by, bit_of};
ghost use Rattle.lgx_num.specs.Paths.{PathInBounds};
ghost use Rattle.lgx_num.specs.Number.{bytes_of};
ghost use Rattle.spec_scan.specs.Arguments.{is_one, bit_number};
ghost use Rattle.lgx_image.specs.Bits.{IsBit};
ghost use Rattle.lgx_image.specs.Words.{cut_step};

use crate::bit::Bit;
use lgx_num::{Index, Kind, Path, Place, bytes_of};

/// The number at a place.
pub(crate) fn number_at(bytes: &[u8], place: Place) -> i32
    requires { InBounds place (length bytes.now) }
    ensures { result ≡ number bytes.now place }
{
    let at = (place.at / 8) as usize;
    match place.kind {
        Kind::Bool => i32::from((bytes[at] >> (place.at % 8)) & 1),
        Kind::Sint => i32::from(i8::from_le_bytes([bytes[at]])),
        Kind::Int => i32::from(i16::from_le_bytes([bytes[at], bytes[at + 1]])),
        Kind::Dint => i32::from_le_bytes([bytes[at], bytes[at + 1], bytes[at + 2], bytes[at + 3]]),
    }
}

/// The DINT that begins at a byte.
#[inline(always)]
pub(crate) fn dint_at(bytes: &[u8], byte: u32) -> i32
    requires { byte + 4 ≤ length bytes.now }
    ensures number { result ≡ number_of Kind.Dint bytes.now (8 * byte) }
    ensures bytes { bytes_of result ≡ piece bytes.now (8 * byte / 8) 4 }
{
    let at = byte as usize;
    i32::from_le_bytes([bytes[at], bytes[at + 1], bytes[at + 2], bytes[at + 3]])
}

/// Whether the bit of this number is 1.
#[inline(always)]
pub(crate) fn bit_at(bytes: &[u8], bit: u32) -> bool
    requires { bit / 8 < length bytes.now }
    ensures { result ≡ is_one (number_of Kind.Bool bytes.now bit) }
{
    (bytes[(bit / 8) as usize] >> (bit % 8)) & 1 == 1
}

/// Whether a bit is 1.
#[inline(always)]
pub(crate) fn is_on(bytes: &[u8], bit: Bit) -> bool
    requires bit { IsBit bit }
    requires lies { bit.number / 8 < length bytes.now }
    ensures { result ≡ is_one (number_of Kind.Bool bytes.now bit.number) }
{
    bytes[bit.byte as usize] & bit.mask != 0
}

/// Whether a bit has this value, so that putting it changes nothing.
#[inline(always)]
pub(crate) fn is_at(bytes: &[u8], bit: Bit, value: bool) -> bool
    requires bit { IsBit bit }
    requires lies { bit.number / 8 < length bytes.now }
    ensures { result ≡ true → write_of Kind.Bool bytes.now bit.number (bit_number value) ≡ bytes.now }
{
    let byte = bytes[bit.byte as usize];
    let put = if value {
        byte | bit.mask
    } else {
        byte & !bit.mask
    };
    put == byte
}

/// Whether the bit of this number has this value, so that putting it changes nothing.
#[inline(always)]
pub(crate) fn is_bit(bytes: &[u8], bit: u32, value: bool) -> bool
    requires { bit / 8 < length bytes.now }
    ensures { result ≡ true → write_of Kind.Bool bytes.now bit (bit_number value) ≡ bytes.now }
{
    let byte = bytes[(bit / 8) as usize];
    let mask = 1u8 << (bit % 8);
    let put = if value { byte | mask } else { byte & !mask };
    put == byte
}

/// Whether the low bits of this value are at a place, so that storing it changes nothing.
#[inline(always)]
pub(crate) fn is_stored(bytes: &[u8], place: Place, value: i32) -> bool
    requires { InBounds place (length bytes.now) }
    ensures { result ≡ true → write bytes.now place value ≡ bytes.now }
{
    let at = (place.at / 8) as usize;
    let low = bytes_of(value);
    match place.kind {
        Kind::Bool => is_bit(bytes, place.at, low[0] % 2 == 1),
        Kind::Sint => bytes[at] == low[0],
        Kind::Int => bytes[at] == low[0] && bytes[at + 1] == low[1],
        Kind::Dint => {
            bytes[at] == low[0]
                && bytes[at + 1] == low[1]
                && bytes[at + 2] == low[2]
                && bytes[at + 3] == low[3]
        }
    }
}

/// Puts a byte; whether that changed it.
#[inline(always)]
pub(crate) fn write_byte(bytes: &mut [u8], at: usize, byte: u8) -> bool
    requires { at < length bytes.old }
    ensures after { bytes.new ≡ slice_set bytes.old at byte }
    ensures differs { result ≡ not (byte == slice_index bytes.old at) }
{
    if bytes[at] == byte {
        return false;
    }
    bytes[at] = byte;
    true
}

/// Puts a bit at the place of this number; whether that changed a byte.
#[inline(always)]
pub(crate) fn write_bit(bytes: &mut [u8], bit: u32, value: bool) -> bool
    requires { bit / 8 < length bytes.old }
    ensures after { bytes.new ≡ write_of Kind.Bool bytes.old bit (bit_number value) }
    ensures len { length bytes.new ≡ length bytes.old }
    ensures changed { result ≡ true → bytes.new ≢ bytes.old }
    ensures kept { result ≡ false → bytes.new ≡ bytes.old }
{
    let at = (bit / 8) as usize;
    let mask = 1u8 << (bit % 8);
    let byte = if value {
        bytes[at] | mask
    } else {
        bytes[at] & !mask
    };
    write_byte(bytes, at, byte)
}

/// Puts a DINT that begins at a byte; whether that changed a byte.
#[inline(always)]
pub(crate) fn write_dint(bytes: &mut [u8], byte: u32, value: i32) -> bool
    requires { byte + 4 ≤ length bytes.old }
    ensures after { bytes.new ≡ write_of Kind.Dint bytes.old (8 * byte) value }
    ensures len { length bytes.new ≡ length bytes.old }
    ensures changed { result ≡ true → bytes.new ≢ bytes.old }
    ensures kept { result ≡ false → bytes.new ≡ bytes.old }
{
    if dint_at(bytes, byte) == value {
        return false;
    }
    let at = byte as usize;
    let low = bytes_of(value);
    bytes[at] = low[0];
    bytes[at + 1] = low[1];
    bytes[at + 2] = low[2];
    bytes[at + 3] = low[3];
    true
}

/// Copies bytes, read whole before they are written.
pub(crate) fn copy_piece(bytes: &mut [u8], source: u32, target: u32, size: u32)
    requires source { source + size ≤ length bytes.old }
    requires target { target + size ≤ length bytes.old }
    ensures after { bytes.new ≡ splice bytes.old target (piece bytes.old source size) }
    ensures len { length bytes.new ≡ length bytes.old }
{
    let source = source as usize;
    let size = size as usize;
    bytes.copy_within(source..source + size, target as usize);
}

/// The first bit of what a path names; None if a subscript is negative or not below its length.
///
/// A sum that doesn't fit is cut off: it comes only if a later subscript is out of range.
pub(crate) fn first_bit(bytes: &[u8], path: &Path) -> Option<u32>
    requires room { length bytes.now ≤ MAX_IMAGE_BYTES }
    requires lies { PathInBounds path.now (length bytes.now) (λ to. to ≤ 8 * length bytes.now) }
    ensures value { result ≡ bit_of bytes.now path.now }
{
    let mut at = path.at;
    for index in path.steps.as_slice() {
        let step = distance(*index, number_at(bytes, index.of))?;
        at = at.saturating_add(step);
    }
    Some(at)
}

/// How many bits a subscript leads on; None if it is negative or not below the number of elements.
fn distance(index: Index, number: i32) -> Option<u32>
    ensures { result ≡ cut_step (step_by index number) }
{
    if number < 0 {
        return None;
    }
    let number = number.cast_unsigned();
    if number >= index.length {
        return None;
    }
    Some(number.saturating_mul(index.stride))
}
