// The tags over which programs run: what rows call them, and where they lie.
//
// They are those of program 1, from byte 412 on: the BOOLs a to z, but for u; the DINTs d0 to d9, and u0 to u3 and v0
// to v3 of the arrays u and v; the TIMERs t0 and t1, the COUNTERs c0 and c1; the SINTs k0 and k1, the INTs m0 and m1;
// sx0 to sx15 of the SINT array sx; the bytes x0 to x15 of the structure mix; the INT arrays ia and ib, the SINT
// array sc, and the bytes bx0 to bx3 of the array of BOOLs bx.
ghost use Rattle.std.specs.Prelude.{◌≡◌, true};
ghost use Rattle.lgx_num.specs.Image.{InBounds};

use crate::errors::Refusal;
use lgx_image::Image;
use lgx_num::{Kind, Place};
use std::alloc::{AllocError, Global};
use test_rows::Told;

/// The number of bytes of all tags.
pub const LEN: u32 = 612;

/// The first bit of the BOOLs a to z.
const BITS: u32 = 3296;

/// Numbers beside one another: what they are called but for their number, their kind, the first bit of the first, how
/// many bits lie from one to the next, and how many there are; none of them has a number if that is 0.
#[derive(Clone, Copy)]
struct Numbers {
    name: &'static str,
    kind: Kind,
    first: u32,
    stride: u32,
    count: u32,
}

fn many(name: &'static str, kind: Kind, first: u32, stride: u32, count: u32) -> Numbers {
    Numbers {
        name,
        kind,
        first,
        stride,
        count,
    }
}

fn one(name: &'static str, kind: Kind, first: u32) -> Numbers {
    many(name, kind, first, 0, 0)
}

/// All numbers, and then the numbers and the status bits of t0 and c0. Bits 26 and 0 of the status words belong to
/// nothing.
fn table() -> [Numbers; 28] {
    [
        many("d", Kind::Dint, 3328, 32, 10),
        many("u", Kind::Dint, 3648, 32, 4),
        many("v", Kind::Dint, 3776, 32, 4),
        many("k", Kind::Sint, 4352, 32, 2),
        many("m", Kind::Int, 4416, 32, 2),
        many("sx", Kind::Sint, 4480, 8, 16),
        many("x", Kind::Sint, 4608, 8, 16),
        many("ia", Kind::Int, 4736, 16, 2),
        many("ib", Kind::Int, 4768, 16, 4),
        many("sc", Kind::Sint, 4832, 8, 3),
        many("bx", Kind::Sint, 4864, 8, 4),
        one("t0.pre", Kind::Dint, 3936),
        one("t0.acc", Kind::Dint, 3968),
        one("t0.last", Kind::Dint, 4000),
        one("t0.EN", Kind::Bool, 3935),
        one("t0.TT", Kind::Bool, 3934),
        one("t0.DN", Kind::Bool, 3933),
        one("t0.26", Kind::Bool, 3930),
        one("t0.0", Kind::Bool, 3904),
        one("c0.pre", Kind::Dint, 4192),
        one("c0.acc", Kind::Dint, 4224),
        one("c0.CU", Kind::Bool, 4191),
        one("c0.CD", Kind::Bool, 4190),
        one("c0.DN", Kind::Bool, 4189),
        one("c0.OV", Kind::Bool, 4188),
        one("c0.UN", Kind::Bool, 4187),
        one("c0.26", Kind::Bool, 4186),
        one("c0.0", Kind::Bool, 4160),
    ]
}

/// The image in which these tags are set and all others 0: a word of letters sets the BOOLs of these letters, `t0.EN`
/// a status bit, and `d3=-5` or `t0.pre=5` a number. `-`, and words that set no tag, are passed over.
pub fn image_of(alloc: Global, words: &str) -> Result<Image, Refusal> {
    let mut image = Image::new(alloc, LEN)?;
    set_all(&mut image, words)?;
    Ok(image)
}

fn set_all(image: &mut Image, words: &str) -> Result<(), Refusal> {
    for word in words.split_whitespace() {
        match word.split_once('=') {
            Some(("now", _)) => {}
            Some((name, value)) => set(image, name, value)?,
            None if word.contains('.') => set(image, word, "1")?,
            None => set_bits(image, word.as_bytes()),
        }
    }
    Ok(())
}

fn set_bits(image: &mut Image, letters: &[u8]) {
    for letter in letters {
        if letter.is_ascii_lowercase() {
            put(image, bit(*letter), 1);
        }
    }
}

fn set(image: &mut Image, name: &str, value: &str) -> Result<(), Refusal> {
    let place = place_of(name).ok_or(Refusal::Form)?;
    let value = value.parse::<i32>().ok().ok_or(Refusal::Form)?;
    put(image, place, value);
    Ok(())
}

/// The place of the BOOL of a letter.
fn bit(letter: u8) -> Place {
    Place {
        kind: Kind::Bool,
        at: BITS.saturating_add(u32::from(letter.saturating_sub(b'a'))),
    }
}

/// The place of a name, but for those of BOOLs.
fn place_of(name: &str) -> Option<Place> {
    for numbers in &table() {
        if let Some(place) = place_among(numbers, name) {
            return Some(place);
        }
    }
    None
}

fn place_among(numbers: &Numbers, name: &str) -> Option<Place> {
    if numbers.count == 0 {
        return (numbers.name == name).then_some(place_at(numbers, 0));
    }
    let number = number_in(name, numbers.name)?;
    (number < numbers.count).then_some(place_at(numbers, number))
}

fn place_at(numbers: &Numbers, number: u32) -> Place {
    Place {
        kind: numbers.kind,
        at: numbers
            .first
            .saturating_add(numbers.stride.saturating_mul(number)),
    }
}

/// The number after these letters, if the name is of that form.
fn number_in(name: &str, letters: &str) -> Option<u32> {
    name.strip_prefix(letters)?.parse::<u32>().ok()
}

/// Says the tags that aren't 0: the letters of the BOOLs, then the numbers, then the members of t0 and c0; `-` if all
/// are 0.
pub fn say_tags(alloc: Global, said: &mut Told, image: &Image) -> Result<(), AllocError> {
    let mut count = say_bits(alloc, said, image)?;
    for numbers in &table() {
        count = count.saturating_add(say_numbers(alloc, said, image, numbers)?);
    }
    if count == 0 {
        said.word("-");
    }
    Ok(())
}

/// Says those of the numbers that aren't 0, and answers how many they are.
fn say_numbers(
    alloc: Global,
    said: &mut Told,
    image: &Image,
    numbers: &Numbers,
) -> Result<usize, AllocError> {
    let mut count = 0usize;
    for number in 0..numbers.count.max(1) {
        let place = place_at(numbers, number);
        let value = get(image, place);
        if value != 0 {
            count = count.saturating_add(1);
            said.word(word_of(alloc, numbers, number, value)?.as_str());
        }
    }
    Ok(count)
}

/// The word of a number: a status bit's is its name alone.
fn word_of(
    alloc: Global,
    numbers: &Numbers,
    number: u32,
    value: i32,
) -> Result<String, AllocError> {
    let name = numbers.name;
    match (numbers.count, numbers.kind) {
        (0, Kind::Bool) => String::from_str(alloc, name),
        (0, _) => format!(in alloc; "{name}={value}"),
        _ => format!(in alloc; "{name}{number}={value}"),
    }
}

/// Says the letters of the BOOLs that are 1, and answers how many they are.
fn say_bits(alloc: Global, said: &mut Told, image: &Image) -> Result<usize, AllocError> {
    let mut letters = Vec::new(alloc);
    for letter in b'a'..b'z' + 1 {
        if get(image, bit(letter)) == 1 {
            letters.push(letter)?;
        }
    }
    if !letters.is_empty() {
        said.bytes(&letters);
    }
    Ok(letters.len())
}

/// The number at a place; 0 if the place doesn't lie in the image.
fn get(image: &Image, place: Place) -> i32 {
    if is_in_bounds(place, image.len()) {
        image.get(place)
    } else {
        0
    }
}

/// Stores a number at a place, if it lies in the image.
fn put(image: &mut Image, place: Place, value: i32) {
    if is_in_bounds(place, image.len()) {
        image.put(place, value);
    }
}

/// Whether a place lies in an image of `len` bytes.
fn is_in_bounds(place: Place, len: u32) -> bool
    ensures { result ≡ true → InBounds place len }
{
    let end = 8 * u64::from(len);
    let at = u64::from(place.at);
    match place.kind {
        Kind::Bool => at < end,
        Kind::Sint => at % 8 == 0 && at + 8 <= end,
        Kind::Int => at % 8 == 0 && at + 16 <= end,
        Kind::Dint => at % 8 == 0 && at + 32 <= end,
    }
}
