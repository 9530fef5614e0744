// The beginning of a copy.
ghost use Rattle.std.specs.Prelude.{◌≡◌, ◌<◌, ◌≤◌, length, IfSome};
ghost use Rattle.spec_scan.specs.Arguments.{arg as operand, size_of};
ghost use Rattle.spec_scan.specs.Copies.{positive, asked, elements, fill_of, is_sync, start_copy, elements_in};
ghost use Rattle.spec_scan.specs.ArgBounds.{ArgsInBounds};
ghost use Rattle.spec_scan.specs.CopyBounds.{CopyInBounds, BlocksInBounds};

use lgx_image::Image;
use lgx_rung::Op;
use spec_base::limits::MAX_IMAGE_BYTES;
use spec_scan::{Arg, Bound, Copying};

/// The copy or fill that begins; None exactly if it has no element.
///
/// It has as many elements as the length asks for, but no more than lie whole up to the end of the destination's tag
/// and, for COP and CPS, of the source's (profile). FLL keeps the value that its source has now.
pub fn start_copy(op: Op, args: &Bound, image: &Image) -> Option<Copying>
    requires { ArgsInBounds args.now (length image.now.bytes) }
    ensures value { result ≡ start_copy op args.now image.now.bytes }
    ensures left { IfSome result (λ copying. 0 < copying.left) }
    ensures lies { BlocksInBounds op args.now (length image.now.bytes) → IfSome result (λ copying. CopyInBounds copying (length image.now.bytes)) }
{
    // The bytes of an image are few, so two of their numbers have a sum of 32 bits.
    prove!(image.len() <= MAX_IMAGE_BYTES);
    let left = elements(op, args, image);
    if left == 0 {
        return None;
    }
    Some(Copying {
        sync: is_sync(op),
        fill: fill_of(op, args, image),
        source: args.at(0).byte(),
        target: args.at(1).byte(),
        size: args.at(1).size(),
        left,
    })
}

/// Whether the task is held until all is copied: CPS alone.
fn is_sync(op: Op) -> bool
    ensures { result ≡ is_sync op }
{
    match op {
        Op::Cps => true,
        _ => false,
    }
}

/// The value that a fill stores.
fn fill_of(op: Op, args: &Bound, image: &Image) -> Option<i32>
    requires { ArgsInBounds args.now (length image.now.bytes) }
    ensures { result ≡ fill_of op args.now image.now.bytes }
{
    match op {
        Op::Fll => Some(image.value(args.at(0))),
        _ => None,
    }
}

/// The number of elements.
fn elements(op: Op, args: &Bound, image: &Image) -> u32
    requires { ArgsInBounds args.now (length image.now.bytes) }
    ensures { result ≡ elements op args.now image.now.bytes }
{
    let asked = asked(args, image);
    match op {
        Op::Fll => asked,
        _ => asked.min(elements_in(args, args.at(0))),
    }
}

/// The elements that the length asks for, none if it isn't positive, and the destination has room for.
fn asked(args: &Bound, image: &Image) -> u32
    requires { ArgsInBounds args.now (length image.now.bytes) }
    ensures { result ≡ asked args.now image.now.bytes }
{
    let length = positive(image.value(args.at(2)));
    length.min(elements_in(args, args.at(1)))
}

/// A length, 0 if it isn't positive.
fn positive(length: i32) -> u32
    ensures { result ≡ positive length }
{
    if length > 0 {
        length.cast_unsigned()
    } else {
        0
    }
}

/// The whole elements of the destination's size up to the end of an operand's tag.
fn elements_in(args: &Bound, arg: Arg) -> u32
    requires { 1 ≤ size_of (operand args.now 1) }
    ensures { result ≡ elements_in args.now arg }
{
    arg.room() / args.at(1).size()
}
