// The timer instructions.
ghost use Rattle.std.specs.Prelude.{◌≡◌, ◌+◌, ◌≤◌, pos, ◌+ℤ◌, ◌-ℤ◌, length, true, false, Some, None, OnOk, OnErr, IfErr};
ghost use Rattle.std.specs.Int.{int_min, int_max};
ghost use Rattle.spec_base.specs.declared.limits.TheConstants.{TIMER_BYTES};
ghost use Rattle.lgx_rung.specs.declared.op.Op.TheVariants.{Ton, Tof};
ghost use Rattle.lgx_rung.specs.declared.operands.Family.TheVariants.{Timer};
ghost use Rattle.lgx_rung.specs.OperandTable.{family_of};
ghost use Rattle.spec_scan.specs.StatusWords.{en_bit, tt_bit, put_status};
ghost use Rattle.spec_scan.specs.Timers.{has_negative, add_ticks, counted_on, with_done_on, count_on, counted_off, with_done_off, count_off, timer};
ghost use Rattle.lgx_image.specs.Grains.{ChangesOnlyMarked};
ghost use Rattle.lgx_time.specs.Numbers.{kept_numbers};

use crate::words::{
    DN, EN, TT, accumulator, is_reached, last_tick, preset, put_accumulator, put_last_tick,
    put_status, status,
};
use lgx_image::Image;
use lgx_rung::Op;

/// A timer can't count since its preset or its accumulator is negative: major fault 4/34. Both are as they are kept, in
/// ticks.
#[derive(Clone, Copy, PartialEq, Eq, Debug)]
pub struct Negative {
    pub pre: i32,
    pub acc: i32,
}

/// TON, RTO or TOF on the timer whose first byte is `at`, with the condition before it, at the tick `now`.
///
/// TON and RTO count with a true condition; TOF counts with a false one while it is done.
#[inline(always)]
pub fn run_timer(op: Op, at: u32, on: bool, now: u32, image: &mut Image) -> Result<(), Negative>
    requires family { family_of op ≡ Timer }
    requires lies { at + TIMER_BYTES ≤ length image.old.bytes }
    ensures ok { OnOk result (timer op at on now image.old.bytes ≡ Some image.new.bytes) }
    ensures err { OnErr result (timer op at on now image.old.bytes ≡ None) }
    ensures negative { IfErr result (λ kept. kept ≡ kept_numbers image.old.bytes at) }
    ensures same { OnErr result (image.new ≡ image.old) }
    ensures only_marked { ChangesOnlyMarked image.old image.new }
{
    if on {
        match op {
            Op::Ton | Op::Rto => count_on(at, now, image),
            Op::Tof => {
                tof_on(at, now, image);
                Ok(())
            }
            _ => unreachable!(),
        }
    } else {
        match op {
            Op::Ton => {
                ton_off(at, image);
                Ok(())
            }
            Op::Rto => {
                stop(at, image);
                Ok(())
            }
            Op::Tof => count_off(at, now, image),
            _ => unreachable!(),
        }
    }
}

/// TON and RTO with a true condition.
#[inline(always)]
fn count_on(at: u32, now: u32, image: &mut Image) -> Result<(), Negative>
    requires lies { at + TIMER_BYTES ≤ length image.old.bytes }
    ensures ok { OnOk result (count_on at now image.old.bytes ≡ Some image.new.bytes) }
    ensures err { OnErr result (count_on at now image.old.bytes ≡ None) }
    ensures negative { IfErr result (λ kept. kept ≡ kept_numbers image.old.bytes at) }
    ensures same { OnErr result (image.new ≡ image.old) }
    ensures only_marked { ChangesOnlyMarked image.old image.new }
{
    check_numbers(at, image)?;
    advance_on(at, now, image);
    put_last_tick(at, now, image);
    update_done_on(at, image);
    Ok(())
}

/// TOF with a false condition.
#[inline]
fn count_off(at: u32, now: u32, image: &mut Image) -> Result<(), Negative>
    requires lies { at + TIMER_BYTES ≤ length image.old.bytes }
    ensures ok { OnOk result (count_off at now image.old.bytes ≡ Some image.new.bytes) }
    ensures err { OnErr result (count_off at now image.old.bytes ≡ None) }
    ensures negative { IfErr result (λ kept. kept ≡ kept_numbers image.old.bytes at) }
    ensures same { OnErr result (image.new ≡ image.old) }
    ensures only_marked { ChangesOnlyMarked image.old image.new }
{
    if !status(at, DN, image) {
        stop(at, image);
        return Ok(());
    }
    check_numbers(at, image)?;
    advance_off(at, now, image);
    put_last_tick(at, now, image);
    update_done_off(at, image);
    Ok(())
}

/// TON with a false condition.
#[inline]
fn ton_off(at: u32, image: &mut Image)
    requires lies { at + TIMER_BYTES ≤ length image.old.bytes }
    ensures bytes { timer Ton at false 0 image.old.bytes ≡ Some image.new.bytes }
    ensures only_marked { ChangesOnlyMarked image.old image.new }
{
    put_status(at, DN, false, image);
    stop(at, image);
    put_accumulator(at, 0, image);
}

/// TOF with a true condition.
#[inline]
fn tof_on(at: u32, now: u32, image: &mut Image)
    requires lies { at + TIMER_BYTES ≤ length image.old.bytes }
    ensures bytes { timer Tof at true now image.old.bytes ≡ Some image.new.bytes }
    ensures only_marked { ChangesOnlyMarked image.old image.new }
{
    put_status(at, DN, true, image);
    put_status(at, TT, false, image);
    put_status(at, EN, true, image);
    put_accumulator(at, 0, image);
    put_last_tick(at, now, image);
}

/// The timer is neither timing nor enabled.
#[inline(always)]
fn stop(at: u32, image: &mut Image)
    requires lies { at + TIMER_BYTES ≤ length image.old.bytes }
    ensures bytes { image.new.bytes ≡ put_status at en_bit false (put_status at tt_bit false image.old.bytes) }
    ensures only_marked { ChangesOnlyMarked image.old image.new }
{
    put_status(at, TT, false, image);
    put_status(at, EN, false, image);
}

/// Refuses a timer whose preset or accumulator is negative.
#[inline(always)]
fn check_numbers(at: u32, image: &Image) -> Result<(), Negative>
    requires lies { at + TIMER_BYTES ≤ length image.now.bytes }
    ensures ok { OnOk result (has_negative image.now.bytes at ≡ false) }
    ensures err { OnErr result (has_negative image.now.bytes at ≡ true) }
    ensures negative { IfErr result (λ kept. kept ≡ kept_numbers image.now.bytes at) }
{
    let pre = preset(at, image);
    let acc = accumulator(at, image);
    if pre < 0 || acc < 0 {
        return Err(Negative { pre, acc });
    }
    Ok(())
}

/// A step of TON and RTO: the first of them enables the timer, each later one adds the ticks unless it is done.
#[inline(always)]
fn advance_on(at: u32, now: u32, image: &mut Image)
    requires lies { at + TIMER_BYTES ≤ length image.old.bytes }
    ensures bytes { image.new.bytes ≡ counted_on at now image.old.bytes }
    ensures only_marked { ChangesOnlyMarked image.old image.new }
{
    if !status(at, EN, image) {
        put_status(at, EN, true, image);
    } else if !status(at, DN, image) {
        add_ticks(at, now, image);
    }
}

/// A step of TOF: the first of them disables the timer, each later one adds the ticks.
#[inline(always)]
fn advance_off(at: u32, now: u32, image: &mut Image)
    requires lies { at + TIMER_BYTES ≤ length image.old.bytes }
    ensures bytes { image.new.bytes ≡ counted_off at now image.old.bytes }
    ensures only_marked { ChangesOnlyMarked image.old image.new }
{
    if status(at, EN, image) {
        put_status(at, EN, false, image);
    } else {
        add_ticks(at, now, image);
    }
}

/// Adds the ticks since the last count to the accumulator.
#[inline(always)]
fn add_ticks(at: u32, now: u32, image: &mut Image)
    requires lies { at + TIMER_BYTES ≤ length image.old.bytes }
    ensures bytes { image.new.bytes ≡ add_ticks at now image.old.bytes }
    ensures only_marked { ChangesOnlyMarked image.old image.new }
{
    let accumulated = accumulated(accumulator(at, image), last_tick(at, image), now);
    put_accumulator(at, accumulated, image);
}

/// An accumulator with the ticks since the last count: none if time ran backwards, and at most its greatest value.
#[inline(always)]
fn accumulated(acc: i32, last_tick: i32, now: u32) -> i32
    ensures { result ≡ int_min (pos 2147483647) (acc +ℤ int_max (pos 0) (pos now -ℤ last_tick)) }
{
    let since = i64::from(now) - i64::from(last_tick);
    let accumulated = i64::from(acc) + since.max(0);
    accumulated.min(i64::from(i32::MAX)) as i32
}

/// A timer that counts with a true condition is done if it has come up to its preset, and else it is timing.
#[inline(always)]
fn update_done_on(at: u32, image: &mut Image)
    requires lies { at + TIMER_BYTES ≤ length image.old.bytes }
    ensures bytes { image.new.bytes ≡ with_done_on at image.old.bytes }
    ensures only_marked { ChangesOnlyMarked image.old image.new }
{
    let done = is_reached(at, image);
    put_status(at, TT, !done, image);
    put_status(at, DN, done, image);
}

/// A timer that counts with a false condition is no longer done if it has come up to its preset, and else it is timing.
#[inline(always)]
fn update_done_off(at: u32, image: &mut Image)
    requires lies { at + TIMER_BYTES ≤ length image.old.bytes }
    ensures bytes { image.new.bytes ≡ with_done_off at image.old.bytes }
    ensures only_marked { ChangesOnlyMarked image.old image.new }
{
    if is_reached(at, image) {
        put_status(at, TT, false, image);
        put_status(at, DN, false, image);
    } else {
        put_status(at, TT, true, image);
    }
}
