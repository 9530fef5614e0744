// The prescan of an instruction.
ghost use Rattle.std.specs.Prelude.{◌≡◌, ◌+◌, ◌≤◌, true, false, pos, length};
ghost use Rattle.spec_base.specs.declared.limits.TheConstants.{TIMER_BYTES};
ghost use Rattle.lgx_num.specs.Image.{write, InBounds};
ghost use Rattle.spec_scan.specs.Arguments.{bit_number};
ghost use Rattle.spec_scan.specs.Executable.{IsExecutable};
ghost use Rattle.spec_scan.specs.Fits.{ArgsFit};
ghost use Rattle.spec_scan.specs.Prescan.{prescan_ins, prescan_one, timer_bits_off};
ghost use Rattle.spec_scan.specs.StatusWords.{pre, put_acc};
ghost use Rattle.spec_scan.specs.ArgBounds.{ArgsInBounds};
ghost use Rattle.lgx_image.specs.Grains.{ChangesOnlyMarked};

use lgx_image::Image;
use lgx_num::Place;
use lgx_prog::Prepared;
use lgx_rung::Op;
use lgx_time::words::{self, CD, CU, DN, EN, TT};
use spec_scan::Bound;

/// The prescan of an instruction: if a subscript is out of range it does nothing.
pub(crate) fn prescan_ins(ins: &Prepared, image: &mut Image)
    requires { IsExecutable (length image.old.bytes) ins.now }
    ensures bytes { image.new.bytes ≡ prescan_ins image.old.bytes ins.now }
    ensures only_marked { ChangesOnlyMarked image.old image.new }
{
    if ins.hands_over() {
        return;
    }
    if let Some(args) = image.bind(ins.args()) {
        prescan_one(ins.op(), &args, image);
    }
}

/// The prescan of an instruction whose operands have their places.
#[tactic(auto, using(spec_scan::proofs::BoundKinds::place_lies, spec_scan::proofs::BoundKinds::timer_lies, spec_scan::proofs::BoundKinds::counter_lies))]
fn prescan_one(op: Op, args: &Bound, image: &mut Image)
    requires fit { ArgsFit op args.now }
    requires lie { ArgsInBounds args.now (length image.old.bytes) }
    ensures bytes { image.new.bytes ≡ prescan_one op args.now image.old.bytes }
    ensures only_marked { ChangesOnlyMarked image.old image.new }
{
    match op {
        Op::Ote => image.put_bit(args.at(0).place(), false),
        Op::Ons => image.put_bit(args.at(0).place(), true),
        Op::Osr => one_shot(args.at(0).place(), true, args.at(1).place(), image),
        Op::Osf => one_shot(args.at(0).place(), false, args.at(1).place(), image),
        Op::Ton => ton(args.at(0).byte(), image),
        Op::Tof => tof(args.at(0).byte(), image),
        Op::Rto => timer_bits_off(args.at(0).byte(), image),
        Op::Ctu => words::put_status(args.at(0).byte(), CU, true, image),
        Op::Ctd => words::put_status(args.at(0).byte(), CD, true, image),
        _ => {}
    }
}

/// OSR and OSF: the storage bit, and the output off.
fn one_shot(storage: Place, on: bool, output: Place, image: &mut Image)
    requires storage { InBounds storage (length image.old.bytes) }
    requires output { InBounds output (length image.old.bytes) }
    ensures bytes { image.new.bytes ≡ write (write image.old.bytes storage (bit_number on)) output (bit_number false) }
    ensures only_marked { ChangesOnlyMarked image.old image.new }
{
    image.put_bit(storage, on);
    image.put_bit(output, false);
}

/// TON: its bits are off, and it begins at 0.
fn ton(at: u32, image: &mut Image)
    requires { at + TIMER_BYTES ≤ length image.old.bytes }
    ensures bytes { image.new.bytes ≡ put_acc at (pos 0) (timer_bits_off at image.old.bytes) }
    ensures only_marked { ChangesOnlyMarked image.old image.new }
{
    timer_bits_off(at, image);
    words::put_accumulator(at, 0, image);
}

/// TOF: its bits are off, and it has come to its preset.
#[tactic(auto, using(lgx_image::proofs::Changes::changes_follow_one_another))]
fn tof(at: u32, image: &mut Image)
    requires { at + TIMER_BYTES ≤ length image.old.bytes }
    ensures bytes { image.new.bytes ≡ put_acc at (pre image.old.bytes at) (timer_bits_off at image.old.bytes) }
    ensures only_marked { ChangesOnlyMarked image.old image.new }
{
    let preset = words::preset(at, image);
    timer_bits_off(at, image);
    words::put_accumulator(at, preset, image);
}

/// The bits of a timer are off.
fn timer_bits_off(at: u32, image: &mut Image)
    requires { at + TIMER_BYTES ≤ length image.old.bytes }
    ensures bytes { image.new.bytes ≡ timer_bits_off at image.old.bytes }
    ensures only_marked { ChangesOnlyMarked image.old image.new }
{
    words::put_status(at, DN, false, image);
    words::put_status(at, TT, false, image);
    words::put_status(at, EN, false, image);
}
