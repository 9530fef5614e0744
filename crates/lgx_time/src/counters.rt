// The counter instructions.
ghost use Rattle.std.specs.Prelude.{◌≡◌, ◌+◌, ◌≤◌, length};
ghost use Rattle.spec_base.specs.declared.limits.TheConstants.{COUNTER_BYTES};
ghost use Rattle.lgx_rung.specs.declared.op.Op.TheVariants.{Ctu, Ctd};
ghost use Rattle.lgx_rung.specs.declared.operands.Family.TheVariants.{Counter};
ghost use Rattle.lgx_rung.specs.OperandTable.{family_of};
ghost use Rattle.spec_scan.specs.Counters.{one_up, one_down, with_done, counter};
ghost use Rattle.lgx_image.specs.Grains.{ChangesOnlyMarked};

use crate::words::{
    CD, CU, DN, OV, UN, accumulator, is_reached, put_accumulator, put_status, status,
};
use lgx_image::Image;
use lgx_rung::Op;

/// CTU or CTD on the counter whose first byte is `at`, with the condition before it.
#[inline(always)]
pub fn run_counter(op: Op, at: u32, on: bool, image: &mut Image)
    requires family { family_of op ≡ Counter }
    requires lies { at + COUNTER_BYTES ≤ length image.old.bytes }
    ensures bytes { image.new.bytes ≡ counter op at on image.old.bytes }
    ensures only_marked { ChangesOnlyMarked image.old image.new }
{
    match op {
        Op::Ctu => ctu(at, on, image),
        Op::Ctd => ctd(at, on, image),
        _ => unreachable!(),
    }
}

/// CTU counts up if its condition became true.
#[inline(always)]
fn ctu(at: u32, on: bool, image: &mut Image)
    requires lies { at + COUNTER_BYTES ≤ length image.old.bytes }
    ensures bytes { image.new.bytes ≡ counter Ctu at on image.old.bytes }
    ensures only_marked { ChangesOnlyMarked image.old image.new }
{
    if !on {
        put_status(at, CU, false, image);
    } else if !status(at, CU, image) {
        put_status(at, CU, true, image);
        one_up(at, image);
    }
    update_done(at, image);
}

/// CTD counts down if its condition became true.
#[inline(always)]
fn ctd(at: u32, on: bool, image: &mut Image)
    requires lies { at + COUNTER_BYTES ≤ length image.old.bytes }
    ensures bytes { image.new.bytes ≡ counter Ctd at on image.old.bytes }
    ensures only_marked { ChangesOnlyMarked image.old image.new }
{
    if !on {
        put_status(at, CD, false, image);
    } else if !status(at, CD, image) {
        put_status(at, CD, true, image);
        one_down(at, image);
    }
    update_done(at, image);
}

/// Counts one up; after the greatest number comes the least, and the counter has overflowed.
#[inline(always)]
fn one_up(at: u32, image: &mut Image)
    requires lies { at + COUNTER_BYTES ≤ length image.old.bytes }
    ensures bytes { image.new.bytes ≡ one_up at image.old.bytes }
    ensures only_marked { ChangesOnlyMarked image.old image.new }
{
    match accumulator(at, image).checked_add(1) {
        Some(next) => put_accumulator(at, next, image),
        None => {
            put_accumulator(at, i32::MIN, image);
            put_status(at, OV, true, image);
        }
    }
}

/// Counts one down; after the least number comes the greatest, and the counter has underflowed.
#[inline(always)]
fn one_down(at: u32, image: &mut Image)
    requires lies { at + COUNTER_BYTES ≤ length image.old.bytes }
    ensures bytes { image.new.bytes ≡ one_down at image.old.bytes }
    ensures only_marked { ChangesOnlyMarked image.old image.new }
{
    match accumulator(at, image).checked_sub(1) {
        Some(next) => put_accumulator(at, next, image),
        None => {
            put_accumulator(at, i32::MAX, image);
            put_status(at, UN, true, image);
        }
    }
}

/// A counter is done exactly if it has come up to its preset.
#[inline(always)]
fn update_done(at: u32, image: &mut Image)
    requires lies { at + COUNTER_BYTES ≤ length image.old.bytes }
    ensures bytes { image.new.bytes ≡ with_done at image.old.bytes }
    ensures only_marked { ChangesOnlyMarked image.old image.new }
{
    let done = is_reached(at, image);
    put_status(at, DN, done, image);
}
