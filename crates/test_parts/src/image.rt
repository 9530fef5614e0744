// The image.
ghost use Rattle.std.specs.Prelude.{◌≡◌, [], IfOk, IsTrue};
ghost use Rattle.lgx_num.specs.Image.{InBounds, InBoundsAt};
ghost use Rattle.lgx_num.specs.Paths.{PathInBounds};

use crate::trouble::Trouble;
use lgx_image::{Arg, GRAIN, Image, grain_of};
use lgx_num::{Index, Kind, Memory, Operand, Path, Place, Steps};
use spec_base::limits::MAX_IMAGE_BYTES;
use std::alloc::Global;
use test_rows::{Told, kind_at, number_at, value_at, word_at};

/// `image | LENGTH ? COMMAND; .. | ..`: what the commands answer in an image of LENGTH bytes.
///
/// `put KIND AT VALUE`, `get KIND AT`, `set AT BIT` and `bit AT` write and read at a bit; `copy FROM TO SIZE` copies
/// bytes; `marked GRAIN` answers the least marked grain from there on, and `clear` takes the marks. `watch KIND AT` watches
/// the words of a place, `hit` answers whether one is hit, `next WORD` the least word from there on that is, and `unhit`
/// clears the hits.
pub fn say_image(
    alloc: Global,
    said: &mut Told,
    length: &str,
    commands: &str,
) -> Result<(), Trouble> {
    let length = number_at(said, length, 0);
    if length > MAX_IMAGE_BYTES {
        return Err(Trouble::Form);
    }
    let mut image = Image::new(alloc, length)?;
    for command in commands.split(';') {
        run(said, &mut image, command);
    }
    Ok(())
}

fn run(said: &mut Told, image: &mut Image, command: &str) {
    match word_at(command, 0) {
        "put" => put(said, image, command),
        "get" => say_number(said, image, command),
        "set" => put_bit(said, image, command),
        "bit" => say_bit(said, image, command),
        "copy" => copy(said, image, command),
        "marked" => say_marked(said, image, command),
        "clear" => image.clear_marks(),
        "watch" => watch(said, image, command),
        "hit" => said.truth(image.is_hit()),
        "next" => say_next(said, image, command),
        "unhit" => image.clear_hits(),
        "len" => said.number(i64::from(image.len())),
        _ => said.malformed(),
    }
}

fn say_marked(said: &mut Told, image: &Image, command: &str) {
    let grain = number_at(said, command, 1);
    said.or_none(image.next_marked(grain));
}

fn say_next(said: &mut Told, image: &Image, command: &str) {
    let word = number_at(said, command, 1);
    said.or_none(image.next_hit(word));
}

fn watch(said: &mut Told, image: &mut Image, command: &str) {
    let place = place_of(said, command);
    if is_in(place, image.len()) {
        image.watch(place);
    } else {
        said.malformed();
    }
}

/// The place of the kind and the bit that are after a command's word.
fn place_of(said: &mut Told, command: &str) -> Place {
    let kind = kind_at(said, command, 1);
    let at = number_at(said, command, 2);
    Place { kind, at }
}

/// Whether a place lies in an image of `len` bytes.
fn is_in(place: Place, len: u32) -> bool
    ensures { IsTrue result → InBounds place len }
{
    let at = u64::from(place.at);
    let end = 8 * u64::from(len);
    match place.kind {
        Kind::Bool => at + 1 <= end,
        Kind::Sint => at % 8 == 0 && at + 8 <= end,
        Kind::Int => at % 8 == 0 && at + 16 <= end,
        Kind::Dint => at % 8 == 0 && at + 32 <= end,
    }
}

fn put(said: &mut Told, image: &mut Image, command: &str) {
    let place = place_of(said, command);
    let value = value_at(said, command, 3);
    put_value(said, image, place, value);
}

fn put_value(said: &mut Told, image: &mut Image, place: Place, value: i32) {
    if is_in(place, image.len()) {
        image.put(place, value);
    } else {
        said.malformed();
    }
}

fn say_number(said: &mut Told, image: &Image, command: &str) {
    let place = place_of(said, command);
    if is_in(place, image.len()) {
        said.number(i64::from(image.get(place)));
    } else {
        said.malformed();
    }
}

/// The place of the BOOL at the bit that is after a command's word.
fn bit_of(said: &mut Told, command: &str) -> Place
    ensures { result.kind ≡ Kind.Bool }
{
    Place {
        kind: Kind::Bool,
        at: number_at(said, command, 1),
    }
}

fn put_bit(said: &mut Told, image: &mut Image, command: &str) {
    let place = bit_of(said, command);
    let bit = number_at(said, command, 2);
    if is_in(place, image.len()) {
        image.put_bit(place, bit == 1);
    } else {
        said.malformed();
    }
}

fn say_bit(said: &mut Told, image: &Image, command: &str) {
    let place = bit_of(said, command);
    if is_in(place, image.len()) {
        said.truth(image.bit(place));
    } else {
        said.malformed();
    }
}

fn copy(said: &mut Told, image: &mut Image, command: &str) {
    let source = number_at(said, command, 1);
    let target = number_at(said, command, 2);
    let size = number_at(said, command, 3);
    let len = u64::from(image.len());
    let size_read = u64::from(source) + u64::from(size);
    let size_written = u64::from(target) + u64::from(size);
    if size_read > len || size_written > len {
        said.malformed();
    } else {
        image.copy_element(source, target, size);
    }
}

/// `grain | BYTE .. | ..`: the bytes of a grain, and the grain of each byte.
pub fn say_grains(said: &mut Told, text: &str) {
    said.number(i64::from(GRAIN));
    for byte in text.split_whitespace() {
        let byte = number_at(said, byte, 0);
        said.number(i64::from(grain_of(byte)));
    }
}

/// `subscripts | A B C D | ..`: the first bit of element `[A,B,C,D]` of an array of 2 by 3 by 4 by 5 SINTs from byte
/// 16 on, or `none` if one is out of range.
pub fn say_element(alloc: Global, said: &mut Told, text: &str) -> Result<(), Trouble> {
    let mut image = Image::new(alloc, 136)?;
    put_subscripts(said, &mut image, text);
    say_place(alloc, said, &image)?;
    Ok(())
}

fn put_subscripts(said: &mut Told, image: &mut Image, text: &str) {
    for i in 0..4u32 {
        let place = Place {
            kind: Kind::Dint,
            at: 32 * i,
        };
        let value = value_at(said, text, i as usize);
        put_value(said, image, place, value);
    }
}

fn say_place(alloc: Global, said: &mut Told, image: &Image) -> Result<(), Memory> {
    let path = nested(alloc)?;
    if image.len() == 136 {
        said.or_none(image.place(&path).map(|place| place.at));
    } else {
        said.malformed();
    }
    Ok(())
}

fn subscript(at: u32, stride: u32, length: u32) -> Index
    ensures { result ≡ record { of = record { kind = Kind.Dint; at = at }; stride = stride; length = length } }
{
    let of = Place {
        kind: Kind::Dint,
        at,
    };
    Index { of, stride, length }
}

/// A SINT of an array of 2 by 3 by 4 by 5 from byte 16 on, with a DINT for each subscript before it.
fn nested(alloc: Global) -> Result<Path, Memory>
    ensures { IfOk result (λ path. PathInBounds path 136 (λ to. InBoundsAt path.kind to 136)) }
{
    let mut steps = Steps::new();
    steps.push(alloc, subscript(0, 480, 2))?;
    steps.push(alloc, subscript(32, 160, 3))?;
    steps.push(alloc, subscript(64, 40, 4))?;
    steps.push(alloc, subscript(96, 8, 5))?;
    Ok(Path {
        kind: Kind::Sint,
        at: 128,
        steps,
    })
}

/// `bind | NUMBER VALUE | ..`: a TIMER at byte 16, a number, a DINT at byte 4 that holds the value, and `?`, each
/// with what it is when it is bound, and then the numbers of the second and of the third.
pub fn say_bound(alloc: Global, said: &mut Told, text: &str) -> Result<(), Trouble> {
    let mut image = Image::new(alloc, 32)?;
    let place = Place {
        kind: Kind::Dint,
        at: 32,
    };
    let value = value_at(said, text, 1);
    put_value(said, &mut image, place, value);
    let number = value_at(said, text, 0);
    bind(said, &image, number);
    bind_blank(said, &image);
    Ok(())
}

fn bind(said: &mut Told, image: &Image, number: i32) {
    let args = [
        Operand::Timer(plain(128)),
        Operand::Number(number),
        Operand::Cell(plain(32)),
    ];
    if image.len() == 32 {
        if let Some(bound) = image.bind(&args) {
            for arg in bound.as_slice() {
                say_arg(said, *arg);
            }
            said.number(i64::from(image.value(bound.at(1))));
            said.number(i64::from(image.value(bound.at(2))));
        }
    }
}

fn bind_blank(said: &mut Told, image: &Image) {
    if let Some(bound) = image.bind(&[Operand::Blank]) {
        say_arg(said, bound.at(0));
        said.count(bound.len());
    }
}

fn say_arg(said: &mut Told, arg: Arg) {
    match arg {
        Arg::Number(number) => say_of(said, "number", i64::from(number)),
        Arg::Cell(place) => say_of(said, "cell", i64::from(place.at)),
        Arg::Timer(byte) => say_of(said, "timer", i64::from(byte)),
        _ => said.word("other"),
    }
}

fn say_of(said: &mut Told, word: &str, number: i64) {
    said.word(word);
    said.number(number);
}

/// A DINT without subscripts.
fn plain(at: u32) -> Path
    ensures { result ≡ record { kind = Kind.Dint; at = at; steps = [] } }
{
    Path {
        kind: Kind::Dint,
        at,
        steps: Steps::new(),
    }
}
