// Numbers, as operands are written.
ghost use Rattle.std.specs.Prelude.{◌^◌, ◌≡◌, ◌<◌, ◌≤◌, ◌+◌, ◌*◌, ◌∷◌, [], min, Some, None, IfSome, IsNone, IsSome, nat_le, nat_lt, pos, neg_ℤ, option_map, if◌then◌else◌};
ghost use Rattle.std.specs.Int.{w32, cast_signed};
ghost use Rattle.spec_language.specs.OperandForm.{are_grouped, base_of, based_number, decimal_number, digits_number, number, within};
ghost use Rattle.spec_language.specs.Operands.{decimal, second_number};
ghost use Rattle.lgx_check.specs.Numbers.{begins_number, number_of, read_byte};

use lgx_num::split_first;
use lgx_rung::Texts;

/// A text that is a number: its value, unless it is outside its range.
#[derive(Clone, Copy, PartialEq, Eq, Debug)]
pub(crate) enum Number {
    Fitting(i32),
    Outside,
}

/// What is no smaller than this is outside of each range.
const BEYOND: u64 = 4294967296;

/// A number with one more digit, or `BEYOND` if that is greater.
fn with_digit(number: u64, base: u32, digit: u32) -> u64
    requires number { number ≤ 2 ^ 32 }
    requires base { base ≤ 16 }
    requires digit { digit < 16 }
    ensures { result ≡ min (number * base + digit) (2 ^ 32) }
{
    (number * u64::from(base) + u64::from(digit)).min(BEYOND)
}

/// The number that digits made so far, and whether a digit comes right before the next byte.
#[derive(Clone, Copy)]
struct Reading {
    number: u64,
    after_digit: bool,
}

/// A byte more: a digit, or an underscore after one.
fn read_byte(base: u32, reading: Reading, byte: u8) -> Option<Reading>
    requires least { 2 ≤ base }
    requires most { base ≤ 16 }
    requires small { reading.number ≤ 2 ^ 32 }
    ensures value { result ≡ read_byte base reading byte }
    ensures small { IfSome result (λ r. r.number ≤ 2 ^ 32) }
{
    match char::from(byte).to_digit(base) {
        Some(digit) => Some(Reading {
            number: with_digit(reading.number, base, digit),
            after_digit: true,
        }),
        None if reading.after_digit && byte == b'_' => Some(Reading {
            number: reading.number,
            after_digit: false,
        }),
        None => None,
    }
}

/// The number that digits make with single underscores between them, or `BEYOND` if that is greater.
#[tactic(auto, using(crate::proofs::Digits::read_at, crate::proofs::Digits::read_end, crate::proofs::Digits::read_whole))]
fn grouped_number(base: u32, text: &[u8]) -> Option<u64>
    requires least { 2 ≤ base }
    requires most { base ≤ 16 }
    ensures number { result ≡ (if are_grouped base text.now then Some (min (digits_number base text.now) (2 ^ 32)) else None) }
    ensures small { IfSome result (λ n. n ≤ 2 ^ 32) }
{
    let mut reading = Reading {
        number: 0,
        after_digit: false,
    };
    for byte in text {
        reading = read_byte(base, reading, *byte)?;
    }
    if reading.after_digit {
        Some(reading.number)
    } else {
        None
    }
}

/// A number that isn't negative.
fn positive(number: u64) -> Number
    ensures { number_of result ≡ within (nat_lt number 2147483648) (pos number) }
{
    if number < 2147483648 {
        Number::Fitting(number as i32)
    } else {
        Number::Outside
    }
}

/// A number with a minus before it.
fn negative(number: u64) -> Number
    ensures { number_of result ≡ within (nat_le number 2147483648) (neg_ℤ (pos number)) }
{
    if number <= 2147483648 {
        Number::Fitting(-(number as i64) as i32)
    } else {
        Number::Outside
    }
}

/// The signed number of the same 32 bits.
fn reinterpreted(number: u64) -> Number
    ensures { number_of result ≡ within (nat_lt number (2 ^ 32)) (cast_signed w32 number) }
{
    if number < BEYOND {
        Number::Fitting((number as u32).cast_signed())
    } else {
        Number::Outside
    }
}

/// The number that decimal digits are, maybe after a minus.
#[tactic(auto, using(crate::proofs::Digits::capped_positive, crate::proofs::Digits::capped_negative))]
fn decimal_number(text: &[u8]) -> Option<Number>
    ensures { option_map number_of result ≡ decimal_number text.now }
{
    match text {
        [b'-', digits @ ..] => Some(negative(grouped_number(10, digits)?)),
        _ => Some(positive(grouped_number(10, text)?)),
    }
}

/// The base that a text before a `#` names (profile).
fn base_of(text: &[u8]) -> Option<u32>
    ensures base { result ≡ base_of text.now }
    ensures least { IfSome result (λ base. 2 ≤ base) }
    ensures most { IfSome result (λ base. base ≤ 16) }
{
    if b"2".as_slice() == text {
        Some(2)
    } else if b"8".as_slice() == text {
        Some(8)
    } else if b"16".as_slice() == text {
        Some(16)
    } else {
        None
    }
}

/// The number that digits of a base are.
#[tactic(auto, using(crate::proofs::Digits::capped_cast))]
fn based_number(base: &[u8], digits: &[u8]) -> Option<Number>
    ensures { option_map number_of result ≡ based_number (base_of base.now) digits.now }
{
    let base = base_of(base)?;
    Some(reinterpreted(grouped_number(base, digits)?))
}

/// Whether a text begins as a number does: with a minus or a digit.
#[inline(always)]
fn begins_number(text: &[u8]) -> bool
    ensures { result ≡ begins_number text.now }
{
    match text {
        [first, ..] => *first == b'-' || first.is_ascii_digit(),
        [] => false,
    }
}

/// The number that a text is. Most operands are names, which are told by their first byte.
#[tactic(auto, using(crate::proofs::Marks::no_number))]
#[inline(always)]
pub(crate) fn read_number(text: &[u8]) -> Option<Number>
    ensures { option_map number_of result ≡ number text.now }
{
    if !begins_number(text) {
        return None;
    }
    number_in(text)
}

/// The number that a text is, however it begins.
#[tactic(auto, using(crate::proofs::Marks::number_alone, crate::proofs::Marks::number_based, crate::proofs::Marks::number_none))]
#[inline(never)]
fn number_in(text: &[u8]) -> Option<Number>
    ensures { option_map number_of result ≡ number text.now }
{
    let Some((base, digits)) = split_first(text, b'#') else {
        return decimal_number(text);
    };
    match split_first(digits, b'#') {
        Some(_) => None,
        None => based_number(base, digits),
    }
}

/// The number that decimal digits are, if it is in its range.
pub(crate) fn decimal(text: &[u8]) -> Option<i32>
    ensures { result ≡ decimal text.now }
{
    match decimal_number(text)? {
        Number::Fitting(number) => Some(number),
        Number::Outside => None,
    }
}

/// The number that the second operand's text gives: of a JSR it is to be the count of its inputs.
pub(crate) fn second_number(texts: &Texts) -> Option<i32>
    ensures { result ≡ second_number texts.now }
{
    let mut operands = texts.operands();
    operands.next()?;
    decimal(operands.next()?)
}
