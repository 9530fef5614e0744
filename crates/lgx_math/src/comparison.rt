// The comparisons.
ghost use Rattle.std.specs.Prelude.{◌≡◌, length};
ghost use Rattle.lgx_rung.specs.declared.operands.Family.TheVariants.{Comparison};
ghost use Rattle.lgx_rung.specs.OperandTable.{family_of};
ghost use Rattle.spec_scan.specs.Comparisons.{compare, holds, is_within, is_equal_under};
ghost use Rattle.spec_scan.specs.ArgBounds.{ArgsInBounds};

use crate::operand::number;
use lgx_image::Image;
use lgx_rung::Op;
use spec_scan::Bound;

/// Whether a comparison holds of its operands: EQU, NEQ, LES, LEQ, GRT, GEQ, LIM or MEQ (1756-RM003).
///
/// LIM has the low limit first, then the number to test, then the high limit; MEQ the source, the mask and the number to
/// compare with.
pub fn compare(op: Op, args: &Bound, image: &Image) -> bool
    requires family { family_of op ≡ Comparison }
    requires lie { ArgsInBounds args.now (length image.now.bytes) }
    ensures { result ≡ compare op args.now image.now.bytes }
{
    let a = number(args.at(0), image);
    let b = number(args.at(1), image);
    let c = number(args.at(2), image);
    holds(op, a, b, c)
}

/// Whether a comparison holds of the values of its operands, in order; where there are two, the third is any number.
#[inline(always)]
pub fn holds(op: Op, a: i32, b: i32, c: i32) -> bool
    requires { family_of op ≡ Comparison }
    ensures { result ≡ holds op a b c }
{
    match op {
        Op::Equ => a == b,
        Op::Neq => a != b,
        Op::Les => a < b,
        Op::Leq => a <= b,
        Op::Grt => a > b,
        Op::Geq => a >= b,
        Op::Lim => is_within(a, b, c),
        Op::Meq => is_equal_under(a, b, c),
        _ => unreachable!(),
    }
}

/// LIM: from the low limit to the high one. With the low limit above the high one all but what is strictly between them.
#[inline(always)]
fn is_within(low: i32, test: i32, high: i32) -> bool
    ensures { result ≡ is_within low test high }
{
    if low <= high {
        low <= test && test <= high
    } else {
        low <= test || test <= high
    }
}

/// MEQ: equal in the bits in which the mask has a 1.
#[inline(always)]
fn is_equal_under(source: i32, mask: i32, other: i32) -> bool
    ensures { result ≡ is_equal_under source mask other }
{
    source & mask == other & mask
}
