// Members, elements and bits of what was found.
ghost use Rattle.std.specs.Prelude.{◌^◌, ◌-◌, ◌≡◌, ◌+◌, ◌*◌, ◌≤◌, min, IsTrue, Ok};
ghost use Rattle.std.specs.Char.{is_digit, digit_value};
ghost use Rattle.spec_base.specs.declared.limits.TheConstants.{MAX_IMAGE_BYTES};
ghost use Rattle.spec_language.specs.Layout.{single};
ghost use Rattle.spec_language.specs.OperandForm.{are_digits, digits_number};
ghost use Rattle.spec_language.specs.Resolution.{stride, may_index, index_by, find_member, find_element, find_bit, find_indexed};
ghost use Rattle.spec_language.specs.ResolutionLaws.{width};
ghost use Rattle.lgx_types.specs.Tables.{HasSize};
ghost use Rattle.lgx_tags.specs.TextReading.{AnswersTag, find_dotted};

use crate::data_type::{integer_bits, is_array, is_integer, kind_of, single};
use crate::error::TagError;
use crate::part::are_digits;
use lgx_num::{Index, Name, Place};
use lgx_types::TypeTable;
use spec_language::{Base, Found, TagCode};
use std::alloc::Global;

/// The bits from one element of an array to the next: a BOOL's are packed.
fn stride(types: &TypeTable, base: Base) -> u32
    requires { HasSize types.now (single base) }
    ensures { result ≡ stride types.now base }
{
    match base {
        Base::Bool => 1,
        _ => 8 * types.size_of(single(base)),
    }
}

/// A number with one more digit, or the greatest number if that is greater.
fn with_digit(number: u32, digit: u8) -> u32
    requires { IsTrue (is_digit digit 10) }
    ensures { result ≡ min (number * 10 + digit_value digit) (2 ^ 32 - 1) }
{
    number
        .saturating_mul(10)
        .saturating_add(u32::from(digit - b'0'))
}

/// The number that digits make, or the greatest number if that is greater: no subscript or bit is as great.
#[tactic(auto, using(crate::proofs::Digits::capped_digits, crate::proofs::Digits::capped_at, crate::proofs::Digits::digit_at))]
fn capped_number(digits: &[u8]) -> u32
    requires { IsTrue (are_digits 10 digits.now) }
    ensures { result ≡ min (digits_number 10 digits.now) (2 ^ 32 - 1) }
{
    let mut number = 0;
    for digit in digits {
        number = with_digit(number, *digit);
    }
    number
}

/// The member of this name. G4 if there is none; a whole array has none.
fn find_member(types: &TypeTable, found: Found, name: &Name) -> Result<Found, TagCode>
    requires { found.at ≤ 8 * MAX_IMAGE_BYTES }
    ensures { result ≡ find_member types.now found name.now }
{
    if is_array(found.of) {
        return Err(TagCode::G4);
    }
    match types.member(found.of.base, name) {
        Some(member) => Ok(Found {
            at: found.at + member.at,
            of: member.of,
            ..found
        }),
        None => Err(TagCode::G4),
    }
}

/// The element of this number. G5 if it is no array's, or out of range.
fn find_element(types: &TypeTable, found: Found, number: u32) -> Result<Found, TagCode>
    requires size { HasSize types.now (single found.of.base) }
    requires room { found.at + width types.now found.of ≤ 8 * MAX_IMAGE_BYTES }
    ensures { result ≡ find_element types.now found number }
{
    if !is_array(found.of) || number >= found.of.dim {
        return Err(TagCode::G5);
    }
    Ok(Found {
        at: found.at + number * stride(types, found.of.base),
        of: single(found.of.base),
        ..found
    })
}

/// The element of the number that digits make.
#[tactic(auto, using(crate::proofs::Digits::capped_element))]
pub(crate) fn find_numbered(
    types: &TypeTable,
    found: Found,
    digits: &[u8],
) -> Result<Found, TagCode>
    requires digits { IsTrue (are_digits 10 digits.now) }
    requires size { HasSize types.now (single found.of.base) }
    requires room { found.at + width types.now found.of ≤ 8 * MAX_IMAGE_BYTES }
    ensures { result ≡ find_element types.now found (digits_number 10 digits.now) }
{
    find_element(types, found, capped_number(digits))
}

/// The bit of this number. G5 if it is no integer's, or out of range.
fn find_bit(found: Found, number: u32) -> Result<Found, TagCode>
    requires { found.at ≤ 8 * MAX_IMAGE_BYTES }
    ensures { result ≡ find_bit found number }
{
    if !is_integer(found.of) || number >= integer_bits(found.of.base) {
        return Err(TagCode::G5);
    }
    Ok(Found {
        at: found.at + number,
        of: single(Base::Bool),
        ..found
    })
}

/// Whether it may be a subscript: an integer place that no subscript moves.
fn may_index(found: &Found) -> bool
    ensures { result ≡ may_index found.now }
{
    is_integer(found.of) && found.steps.is_empty()
}

/// What an operand in brackets makes of an array. G6 if it is no subscript, G9 if it is the fifth.
pub(crate) fn find_indexed(
    alloc: Global,
    types: &TypeTable,
    array: Found,
    subscript: &Found,
) -> Result<Found, TagError>
    requires { HasSize types.now (single array.of.base) }
    ensures { AnswersTag (find_indexed types.now array (Ok subscript.now)) result }
{
    if !may_index(subscript) {
        return Err(TagError::Tag(TagCode::G6));
    }
    if array.steps.is_full() {
        return Err(TagError::Tag(TagCode::G9));
    }
    let index = Index {
        of: Place {
            kind: kind_of(subscript.of.base),
            at: subscript.at,
        },
        stride: stride(types, array.of.base),
        length: array.of.dim,
    };
    let mut steps = array.steps;
    steps.push(alloc, index)?;
    Ok(Found {
        at: array.at,
        steps,
        of: single(array.of.base),
        stop: array.stop,
    })
}

/// What a word after a dot names: a member, or a bit by its number.
pub(crate) fn find_dotted(types: &TypeTable, found: Found, word: &[u8]) -> Result<Found, TagCode>
    requires { found.at ≤ 8 * MAX_IMAGE_BYTES }
    ensures { result ≡ find_dotted types.now found word.now }
{
    match Name::read(word) {
        Some(name) => find_member(types, found, &name),
        None if are_digits(word) => find_bit(found, capped_number(word)),
        None => Err(TagCode::G10),
    }
}
