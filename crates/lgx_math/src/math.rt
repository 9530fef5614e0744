// Arithmetic, moves and operations bit by bit.
ghost use Rattle.std.specs.Prelude.{◌≡◌, ℕ, length, pos, int_lt};
ghost use Rattle.lgx_num.specs.Image.{InBounds};
ghost use Rattle.lgx_num.specs.Number.{store_low};
ghost use Rattle.lgx_rung.specs.declared.operands.Family.TheVariants.{Arithmetic};
ghost use Rattle.lgx_rung.specs.OperandTable.{family_of};
ghost use Rattle.spec_scan.specs.Arguments.{arg, place_of};
ghost use Rattle.spec_scan.specs.Arithmetic.{math, dest, is_zero, overflows};
ghost use Rattle.spec_scan.specs.Fits.{ArgsFit};
ghost use Rattle.spec_scan.specs.ArgBounds.{ArgsInBounds};
ghost use Rattle.lgx_image.specs.Grains.{ChangesOnlyMarked};
ghost use Rattle.lgx_math.specs.Steps.{step_of, stored};

use crate::operand::number;
use crate::results::{overflows, result_of};
use lgx_image::Image;
use lgx_num::{Flags, Kind, Place, store_low};
use lgx_rung::Op;
use spec_scan::Bound;

/// Stores the low bits of an instruction's result at its destination, the last operand, and sets the task's flags (profile:
/// a task has its own, and no other instruction changes them). True if a minor fault of type 4 and code 4 is due.
///
/// The instructions are ADD, SUB, MUL, DIV, MOD, NEG, ABS, MOV, AND, OR, XOR, NOT, MVM and CLR (1756-RM003).
pub fn run_math(op: Op, args: &Bound, flags: &mut Flags, image: &mut Image) -> bool
    requires family { family_of op ≡ Arithmetic }
    requires fit { ArgsFit op args.now }
    requires lie { ArgsInBounds args.now (length image.old.bytes) }
    ensures due { result ≡ (math op args.now image.old.bytes).flags.v }
    ensures flags { flags.new ≡ (math op args.now image.old.bytes).flags }
    ensures bytes { image.new.bytes ≡ (math op args.now image.old.bytes).image }
    ensures only_marked { ChangesOnlyMarked image.old image.new }
{
    let place = destination(op, args);
    let a = number(args.at(0), image);
    let b = number(args.at(1), image);
    run_math_of(op, a, b, place, flags, image)
}

/// What [`run_math`] does, by the numbers of the first and second operand (any number for one that the instruction doesn't have)
/// and by the destination's place.
#[inline(always)]
pub fn run_math_of(
    op: Op,
    a: i32,
    b: i32,
    place: Place,
    flags: &mut Flags,
    image: &mut Image,
) -> bool
    requires family { family_of op ≡ Arithmetic }
    requires lies { InBounds place (length image.old.bytes) }
    ensures due { result ≡ (step_of op a b place image.old.bytes).flags.v }
    ensures flags { flags.new ≡ (step_of op a b place image.old.bytes).flags }
    ensures bytes { image.new.bytes ≡ (step_of op a b place image.old.bytes).image }
    ensures only_marked { ChangesOnlyMarked image.old image.new }
{
    match place.kind {
        Kind::Dint => run_to_dint(op, a, b, place, flags, image),
        _ => run_to_narrow(op, a, b, place, flags, image),
    }
}

/// The same, where the destination is a DINT. Each arm knows its instruction, so that it does what that one does and nothing else.
#[inline(never)]
fn run_to_dint(op: Op, a: i32, b: i32, place: Place, flags: &mut Flags, image: &mut Image) -> bool
    requires family { family_of op ≡ Arithmetic }
    requires kind { place.kind ≡ Kind.Dint }
    requires lies { InBounds place (length image.old.bytes) }
    ensures due { result ≡ (step_of op a b place image.old.bytes).flags.v }
    ensures flags { flags.new ≡ (step_of op a b place image.old.bytes).flags }
    ensures bytes { image.new.bytes ≡ (step_of op a b place image.old.bytes).image }
    ensures only_marked { ChangesOnlyMarked image.old image.new }
{
    match op {
        Op::Add => run_dint_math(Op::Add, a, b, place, flags, image),
        Op::Sub => run_dint_math(Op::Sub, a, b, place, flags, image),
        Op::Mul => run_dint_math(Op::Mul, a, b, place, flags, image),
        Op::Div => run_dint_math(Op::Div, a, b, place, flags, image),
        Op::Mod => run_dint_math(Op::Mod, a, b, place, flags, image),
        Op::Neg => run_dint_math(Op::Neg, a, b, place, flags, image),
        Op::Abs => run_dint_math(Op::Abs, a, b, place, flags, image),
        Op::Mov => run_dint_math(Op::Mov, a, b, place, flags, image),
        Op::And => run_dint_math(Op::And, a, b, place, flags, image),
        Op::Or => run_dint_math(Op::Or, a, b, place, flags, image),
        Op::Xor => run_dint_math(Op::Xor, a, b, place, flags, image),
        Op::Not => run_dint_math(Op::Not, a, b, place, flags, image),
        Op::Clr => run_dint_math(Op::Clr, a, b, place, flags, image),
        _ => run_dint_math(op, a, b, place, flags, image),
    }
}

/// The same, where it is anything but a DINT.
#[inline(never)]
fn run_to_narrow(op: Op, a: i32, b: i32, place: Place, flags: &mut Flags, image: &mut Image) -> bool
    requires family { family_of op ≡ Arithmetic }
    requires lies { InBounds place (length image.old.bytes) }
    ensures due { result ≡ (step_of op a b place image.old.bytes).flags.v }
    ensures flags { flags.new ≡ (step_of op a b place image.old.bytes).flags }
    ensures bytes { image.new.bytes ≡ (step_of op a b place image.old.bytes).image }
    ensures only_marked { ChangesOnlyMarked image.old image.new }
{
    store_result(op, a, b, place, flags, image)
}

/// The place of the last operand, to which the result goes.
fn destination(op: Op, args: &Bound) -> Place
    requires family { family_of op ≡ Arithmetic }
    requires fit { ArgsFit op args.now }
    ensures value { result ≡ place_of (arg args.now (dest op)) }
    ensures lies { (len : ℕ) → ArgsInBounds args.now len → InBounds result len }
{
    let last = op.fixed_kinds().len() - 1;
    args.at(last).place()
}

/// As [`run_math_of`], where nothing is known of the instruction.
#[inline(always)]
fn store_result(op: Op, a: i32, b: i32, place: Place, flags: &mut Flags, image: &mut Image) -> bool
    requires family { family_of op ≡ Arithmetic }
    requires lies { InBounds place (length image.old.bytes) }
    ensures due { result ≡ (step_of op a b place image.old.bytes).flags.v }
    ensures flags { flags.new ≡ (step_of op a b place image.old.bytes).flags }
    ensures bytes { image.new.bytes ≡ (step_of op a b place image.old.bytes).image }
    ensures only_marked { ChangesOnlyMarked image.old image.new }
{
    let exact = result_of(op, a, b, place, image);
    store(op, b, exact, place, flags, image)
}

/// What [`run_math_of`] does where the destination is a DINT, by code of its own for each caller: one that says which instruction it
/// is takes that one's alone.
#[inline(always)]
pub fn run_dint_math(
    op: Op,
    a: i32,
    b: i32,
    place: Place,
    flags: &mut Flags,
    image: &mut Image,
) -> bool
    requires family { family_of op ≡ Arithmetic }
    requires kind { place.kind ≡ Kind.Dint }
    requires lies { InBounds place (length image.old.bytes) }
    ensures due { result ≡ (step_of op a b place image.old.bytes).flags.v }
    ensures flags { flags.new ≡ (step_of op a b place image.old.bytes).flags }
    ensures bytes { image.new.bytes ≡ (step_of op a b place image.old.bytes).image }
    ensures only_marked { ChangesOnlyMarked image.old image.new }
{
    let exact = result_of(op, a, b, place, image);
    let overflow = overflows(op, Kind::Dint, b, exact);
    store_dint(overflow, exact, place, flags, image)
}

/// Stores the exact result of an instruction, which has this second source, at a place.
#[inline(always)]
fn store(op: Op, b: i32, exact: i64, place: Place, flags: &mut Flags, image: &mut Image) -> bool
    requires { InBounds place (length image.old.bytes) }
    ensures due { result ≡ (stored (overflows op place.kind b exact) exact place image.old.bytes).flags.v }
    ensures flags { flags.new ≡ (stored (overflows op place.kind b exact) exact place image.old.bytes).flags }
    ensures bytes { image.new.bytes ≡ (stored (overflows op place.kind b exact) exact place image.old.bytes).image }
    ensures only_marked { ChangesOnlyMarked image.old image.new }
{
    match place.kind {
        Kind::Dint => {
            let overflow = overflows(op, Kind::Dint, b, exact);
            store_dint(overflow, exact, place, flags, image)
        }
        kind => {
            let overflow = overflows(op, kind, b, exact);
            store_narrow(overflow, exact, place, flags, image)
        }
    }
}

/// Stores the low 32 bits of a result at the place of a DINT; whether it overflowed.
#[inline(always)]
fn store_dint(
    overflow: bool,
    exact: i64,
    place: Place,
    flags: &mut Flags,
    image: &mut Image,
) -> bool
    requires kind { place.kind ≡ Kind.Dint }
    requires lies { InBounds place (length image.old.bytes) }
    ensures due { result ≡ overflow }
    ensures flags { flags.new ≡ (stored overflow exact place image.old.bytes).flags }
    ensures bytes { image.new.bytes ≡ (stored overflow exact place image.old.bytes).image }
    ensures only_marked { ChangesOnlyMarked image.old image.new }
{
    let low = low_dint(exact);
    *flags = flags_of(overflow, low);
    image.change_dint(place.at / 8, low);
    overflow
}

/// The number that the low 32 bits of a result are.
#[inline(always)]
fn low_dint(exact: i64) -> i32
    ensures { result ≡ store_low Kind.Dint exact }
{
    store_low(Kind::Dint, exact)
}

/// Stores the low bits of a result at a place of any kind; whether it overflowed.
fn store_narrow(
    overflow: bool,
    exact: i64,
    place: Place,
    flags: &mut Flags,
    image: &mut Image,
) -> bool
    requires { InBounds place (length image.old.bytes) }
    ensures due { result ≡ overflow }
    ensures flags { flags.new ≡ (stored overflow exact place image.old.bytes).flags }
    ensures bytes { image.new.bytes ≡ (stored overflow exact place image.old.bytes).image }
    ensures only_marked { ChangesOnlyMarked image.old image.new }
{
    let low = store_low(place.kind, exact);
    *flags = flags_of(overflow, low);
    image.change(place, low);
    overflow
}

/// The flags after a number was stored.
#[inline(always)]
fn flags_of(overflow: bool, stored: i32) -> Flags
    ensures { result ≡ record { v = overflow; z = is_zero stored; n = int_lt stored (pos 0) } }
{
    Flags {
        v: overflow,
        z: stored == 0,
        n: stored < 0,
    }
}
