// The bit instructions. Each answers the condition that goes on.
ghost use Rattle.std.specs.Prelude.{◌≡◌, ◌&&◌, not, false, true, if◌then◌else◌, length};
ghost use Rattle.lgx_num.specs.Image.{number, write, InBounds};
ghost use Rattle.spec_scan.specs.Arguments.{is_one, bit_number};
ghost use Rattle.spec_scan.specs.Bits.{bits};
ghost use Rattle.spec_scan.specs.Fits.{ArgsFit};
ghost use Rattle.spec_scan.specs.ArgBounds.{ArgsInBounds};
ghost use Rattle.lgx_image.specs.Grains.{ChangesOnlyMarked};

use crate::operand::is_on;
use lgx_image::Image;
use lgx_num::{Flags, Place};
use lgx_rung::Op;
use spec_scan::Bound;

/// Executes a bit instruction, and answers the condition that goes on (1756-RM003).
///
/// `on` is the condition before it, `first` the flag `S:FS`, and `flags` are the task's. Any other instruction does
/// nothing here, and the condition goes on as it is.
#[tactic(auto, using(spec_scan::proofs::BoundKinds::place_lies))]
pub fn run_bits(
    op: Op,
    args: &Bound,
    on: bool,
    first: bool,
    flags: Flags,
    image: &mut Image,
) -> bool
    requires fit { ArgsFit op args.now }
    requires lie { ArgsInBounds args.now (length image.old.bytes) }
    ensures condition { result ≡ (bits op args.now on first flags image.old.bytes).on }
    ensures bytes { image.new.bytes ≡ (bits op args.now on first flags image.old.bytes).image }
    ensures only_marked { ChangesOnlyMarked image.old image.new }
{
    match op {
        Op::Xic => on && is_on(args.at(0), first, flags, image),
        Op::Xio => on && !is_on(args.at(0), first, flags, image),
        Op::Ote => ote(args.at(0).place(), on, image),
        Op::Otl => otl(args.at(0).place(), on, image),
        Op::Otu => otu(args.at(0).place(), on, image),
        Op::Ons => ons(args.at(0).place(), on, image),
        Op::Osr => osr(args.at(0).place(), args.at(1).place(), on, image),
        Op::Osf => osf(args.at(0).place(), args.at(1).place(), on, image),
        Op::Afi => false,
        _ => on,
    }
}

/// OTE: the bit is the condition.
#[inline(always)]
fn ote(bit: Place, on: bool, image: &mut Image) -> bool
    requires { InBounds bit (length image.old.bytes) }
    ensures condition { result ≡ on }
    ensures bytes { image.new.bytes ≡ write image.old.bytes bit (bit_number on) }
    ensures only_marked { ChangesOnlyMarked image.old image.new }
{
    image.put_bit(bit, on);
    on
}

/// OTL: a true condition sets the bit.
fn otl(bit: Place, on: bool, image: &mut Image) -> bool
    requires { InBounds bit (length image.old.bytes) }
    ensures condition { result ≡ on }
    ensures bytes { image.new.bytes ≡ (if on then write image.old.bytes bit (bit_number true) else image.old.bytes) }
    ensures only_marked { ChangesOnlyMarked image.old image.new }
{
    if on {
        image.put_bit(bit, true);
    }
    on
}

/// OTU: a true condition clears the bit.
fn otu(bit: Place, on: bool, image: &mut Image) -> bool
    requires { InBounds bit (length image.old.bytes) }
    ensures condition { result ≡ on }
    ensures bytes { image.new.bytes ≡ (if on then write image.old.bytes bit (bit_number false) else image.old.bytes) }
    ensures only_marked { ChangesOnlyMarked image.old image.new }
{
    if on {
        image.put_bit(bit, false);
    }
    on
}

/// ONS: the condition goes on in the scan in which it becomes true. The storage bit keeps it for the next scan.
fn ons(storage: Place, on: bool, image: &mut Image) -> bool
    requires { InBounds storage (length image.old.bytes) }
    ensures condition { result ≡ (on && not (is_one (number image.old.bytes storage))) }
    ensures bytes { image.new.bytes ≡ write image.old.bytes storage (bit_number on) }
    ensures only_marked { ChangesOnlyMarked image.old image.new }
{
    let was_on = image.bit(storage);
    image.put_bit(storage, on);
    on && !was_on
}

/// OSR: the output is 1 in the scan in which the condition becomes true. The output is written before the storage bit.
#[tactic(auto, using(lgx_image::proofs::Changes::changes_follow_one_another))]
fn osr(storage: Place, output: Place, on: bool, image: &mut Image) -> bool
    requires storage { InBounds storage (length image.old.bytes) }
    requires output { InBounds output (length image.old.bytes) }
    ensures condition { result ≡ on }
    ensures bytes { image.new.bytes ≡ write (write image.old.bytes output (bit_number (on && not (is_one (number image.old.bytes storage))))) storage (bit_number on) }
    ensures only_marked { ChangesOnlyMarked image.old image.new }
{
    let was_on = image.bit(storage);
    image.put_bit(output, on && !was_on);
    image.put_bit(storage, on);
    on
}

/// OSF: the output is 1 in the scan in which the condition becomes false. With a true condition the storage bit is written
/// before the output, and with a false one after it.
#[tactic(auto, using(lgx_image::proofs::Changes::changes_follow_one_another))]
fn osf(storage: Place, output: Place, on: bool, image: &mut Image) -> bool
    requires storage { InBounds storage (length image.old.bytes) }
    requires output { InBounds output (length image.old.bytes) }
    ensures condition { result ≡ on }
    ensures rises { on ≡ true → image.new.bytes ≡ write (write image.old.bytes storage (bit_number true)) output (bit_number false) }
    ensures falls { on ≡ false → image.new.bytes ≡ write (write image.old.bytes output (bit_number (is_one (number image.old.bytes storage)))) storage (bit_number false) }
    ensures only_marked { ChangesOnlyMarked image.old image.new }
{
    if on {
        image.put_bit(storage, true);
        image.put_bit(output, false);
    } else {
        let was_on = image.bit(storage);
        image.put_bit(output, was_on);
        image.put_bit(storage, false);
    }
    on
}
