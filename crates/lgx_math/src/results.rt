// The exact results of arithmetic, and whether they overflow.
ghost use Rattle.std.specs.Prelude.{◌≡◌, length};
ghost use Rattle.lgx_num.specs.Image.{number, InBounds};
ghost use Rattle.lgx_rung.specs.declared.operands.Family.TheVariants.{Arithmetic};
ghost use Rattle.lgx_rung.specs.OperandTable.{family_of};
ghost use Rattle.spec_scan.specs.Arithmetic.{result_of, quotient, remainder, masked_move, is_exact, divides, overflows};

use lgx_image::Image;
use lgx_num::{Kind, Place, fits};
use lgx_rung::Op;

/// The exact result of a first and a second source and of what is at the destination, which MVM alone reads.
#[inline(always)]
pub(crate) fn result_of(op: Op, a: i32, b: i32, place: Place, image: &Image) -> i64
    requires family { family_of op ≡ Arithmetic }
    requires lies { InBounds place (length image.now.bytes) }
    ensures { result ≡ result_of op a b (number image.now.bytes place) }
{
    match op {
        Op::Add => i64::from(a) + i64::from(b),
        Op::Sub => i64::from(a) - i64::from(b),
        Op::Mul => i64::from(a) * i64::from(b),
        Op::Div => quotient(a, b),
        Op::Mod => remainder(a, b),
        Op::Neg => -i64::from(a),
        Op::Abs => i64::from(a.unsigned_abs()),
        Op::Mov => i64::from(a),
        Op::And => i64::from(a & b),
        Op::Or => i64::from(a | b),
        Op::Xor => i64::from(a ^ b),
        Op::Not => i64::from(!a),
        Op::Mvm => i64::from(masked_move(a, b, image.get(place))),
        Op::Clr => 0,
        _ => unreachable!(),
    }
}

/// DIV: the quotient, cut towards zero; the dividend if the divisor is 0.
#[inline(always)]
fn quotient(a: i32, b: i32) -> i64
    ensures { result ≡ quotient a b }
{
    if b == 0 {
        i64::from(a)
    } else {
        i64::from(a) / i64::from(b)
    }
}

/// MOD: what the quotient leaves, with the sign of the dividend; 0 if the divisor is 0 (profile).
#[inline(always)]
fn remainder(a: i32, b: i32) -> i64
    ensures { result ≡ remainder a b }
{
    if b == 0 {
        0
    } else {
        i64::from(a) % i64::from(b)
    }
}

/// MVM: the bits of the source for which the mask has a 1, and the other bits of the destination.
#[inline(always)]
fn masked_move(source: i32, mask: i32, dest: i32) -> i32
    ensures { result ≡ masked_move source mask dest }
{
    (source & mask) | (dest & !mask)
}

/// Whether the overflow flag comes on: the exact result doesn't fit the destination, or the divisor is 0 (profile).
/// Operations bit by bit and CLR never overflow (profile).
#[inline(always)]
pub(crate) fn overflows(op: Op, kind: Kind, divisor: i32, exact: i64) -> bool
    ensures { result ≡ overflows op kind divisor exact }
{
    is_exact(op) && (!fits(kind, exact) || (divides(op) && divisor == 0))
}

/// Whether an instruction overflows if its exact result doesn't fit the destination.
#[inline(always)]
fn is_exact(op: Op) -> bool
    ensures { result ≡ is_exact op }
{
    matches!(
        op,
        Op::Add | Op::Sub | Op::Mul | Op::Div | Op::Mod | Op::Neg | Op::Abs | Op::Mov
    )
}

/// Whether it is DIV or MOD.
#[inline(always)]
fn divides(op: Op) -> bool
    ensures { result ≡ divides op }
{
    matches!(op, Op::Div | Op::Mod)
}
