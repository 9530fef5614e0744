//! What is in a timer or a counter: bits of its status word, and its numbers. `at` is the first byte of either.
ghost use Rattle.std.specs.Prelude.{◌≡◌, ◌+◌, ◌*◌, ◌<◌, ◌≤◌, if◌then◌else◌, length};
ghost use Rattle.spec_base.specs.declared.limits.TheConstants.{TIMER_BYTES, COUNTER_BYTES};
ghost use Rattle.spec_scan.specs.StatusWords.{status, put_status, dint, put_dint, pre, acc, put_acc, last_tick, put_last_tick, is_reached, reset};
ghost use Rattle.lgx_image.specs.Grains.{ChangesOnlyMarked};

use lgx_image::Image;

/// The bit of a timer's status word for enabled.
pub const EN: u32 = 31;

/// A timer's bit for timing.
pub const TT: u32 = 30;

/// A timer's and a counter's bit for done.
pub const DN: u32 = 29;

/// A counter's bit for counting up.
pub const CU: u32 = 31;

/// A counter's bit for counting down.
pub const CD: u32 = 30;

/// A counter's bit for overflow.
pub(crate) const OV: u32 = 28;

/// A counter's bit for underflow.
pub(crate) const UN: u32 = 27;

/// The byte of a timer or a counter at which the status word begins.
const STATUS_WORD: u32 = 0;

/// The byte of the preset.
const PRE: u32 = 4;

/// The byte of the accumulator.
const ACC: u32 = 8;

/// The byte of a timer's tick of the last count.
const LAST_TICK: u32 = 12;

/// The number of a bit of a status word, which lies in the image.
#[inline(always)]
fn status_bit(at: u32, number: u32, image: &Image) -> u32
    requires lies { at + 4 ≤ length image.now.bytes }
    requires number { number < 32 }
    ensures { result ≡ 8 * at + number }
{
    // The bytes of an image are few, so the sum fits.
    let _ = image.len();
    8 * at + number
}

/// A bit of the status word.
#[inline(always)]
pub(crate) fn status(at: u32, number: u32, image: &Image) -> bool
    requires lies { at + 4 ≤ length image.now.bytes }
    requires number { number < 32 }
    ensures { result ≡ status image.now.bytes at number }
{
    image.bit_at(status_bit(at, number, image))
}

/// Sets or clears a bit of the status word, by its number from 0 to 31.
#[inline(always)]
pub fn put_status(at: u32, number: u32, on: bool, image: &mut Image)
    requires lies { at + 4 ≤ length image.old.bytes }
    requires number { number < 32 }
    ensures bytes { image.new.bytes ≡ put_status at number on image.old.bytes }
    ensures only_marked { ChangesOnlyMarked image.old image.new }
{
    image.change_bit_at(status_bit(at, number, image), on);
}

/// The number that begins `offset` bytes after the first one.
#[inline(always)]
fn number(at: u32, offset: u32, image: &Image) -> i32
    requires lies { at + offset + 4 ≤ length image.now.bytes }
    requires offset { offset < TIMER_BYTES }
    ensures { result ≡ dint image.now.bytes (at + offset) }
{
    let _ = image.len();
    image.dint(at + offset)
}

/// Stores a number `offset` bytes after the first one.
#[inline(always)]
fn put_number(at: u32, offset: u32, value: i32, image: &mut Image)
    requires lies { at + offset + 4 ≤ length image.old.bytes }
    requires offset { offset < TIMER_BYTES }
    ensures bytes { image.new.bytes ≡ put_dint (at + offset) value image.old.bytes }
    ensures only_marked { ChangesOnlyMarked image.old image.new }
{
    let _ = image.len();
    image.change_dint(at + offset, value);
}

/// The preset: at how much the timer or counter is done, a timer in ticks.
#[inline(always)]
pub fn preset(at: u32, image: &Image) -> i32
    requires lies { at + COUNTER_BYTES ≤ length image.now.bytes }
    ensures { result ≡ pre image.now.bytes at }
{
    number(at, PRE, image)
}

/// The accumulator: how far the timer or counter has come.
#[inline(always)]
pub(crate) fn accumulator(at: u32, image: &Image) -> i32
    requires lies { at + COUNTER_BYTES ≤ length image.now.bytes }
    ensures { result ≡ acc image.now.bytes at }
{
    number(at, ACC, image)
}

/// Stores the accumulator: how far the timer or counter has come, a timer in ticks.
#[inline(always)]
pub fn put_accumulator(at: u32, value: i32, image: &mut Image)
    requires lies { at + COUNTER_BYTES ≤ length image.old.bytes }
    ensures bytes { image.new.bytes ≡ put_acc at value image.old.bytes }
    ensures only_marked { ChangesOnlyMarked image.old image.new }
{
    put_number(at, ACC, value, image);
}

/// The tick at which a timer last counted, read as a signed number.
#[inline(always)]
pub(crate) fn last_tick(at: u32, image: &Image) -> i32
    requires lies { at + TIMER_BYTES ≤ length image.now.bytes }
    ensures { result ≡ last_tick image.now.bytes at }
{
    number(at, LAST_TICK, image)
}

/// Keeps the tick of a count by its low 32 bits.
#[inline(always)]
pub(crate) fn put_last_tick(at: u32, now: u32, image: &mut Image)
    requires lies { at + TIMER_BYTES ≤ length image.old.bytes }
    ensures bytes { image.new.bytes ≡ put_last_tick at now image.old.bytes }
    ensures only_marked { ChangesOnlyMarked image.old image.new }
{
    put_number(at, LAST_TICK, now.cast_signed(), image);
}

/// Whether the accumulator has come up to the preset.
#[inline(always)]
pub(crate) fn is_reached(at: u32, image: &Image) -> bool
    requires lies { at + COUNTER_BYTES ≤ length image.now.bytes }
    ensures { result ≡ is_reached image.now.bytes at }
{
    preset(at, image) <= accumulator(at, image)
}

/// RES on a timer or a counter, whose first byte is `at`: with a true condition its accumulator and its whole status word
/// become 0, and with a false one nothing happens.
#[inline(always)]
pub fn reset(timer: bool, at: u32, on: bool, image: &mut Image)
    requires lies { at + (if timer then TIMER_BYTES else COUNTER_BYTES) ≤ length image.old.bytes }
    ensures bytes { image.new.bytes ≡ reset at on image.old.bytes }
    ensures only_marked { ChangesOnlyMarked image.old image.new }
{
    if on {
        put_accumulator(at, 0, image);
        put_number(at, STATUS_WORD, 0, image);
    }
}
