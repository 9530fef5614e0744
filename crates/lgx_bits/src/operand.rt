// An operand as a bit.
ghost use Rattle.std.specs.Prelude.{◌≡◌, length};
ghost use Rattle.spec_scan.specs.Arguments.{bit_value};
ghost use Rattle.spec_scan.specs.ArgBounds.{ArgInBounds};

use lgx_image::Image;
use lgx_num::{Flag, Flags};
use spec_scan::Arg;

/// Whether an operand's bit is 1: the bit at a place, or a status flag.
#[inline(always)]
pub(crate) fn is_on(arg: Arg, first: bool, flags: Flags, image: &Image) -> bool
    requires { ArgInBounds arg (length image.now.bytes) }
    ensures { result ≡ bit_value first flags image.now.bytes arg }
{
    match arg {
        Arg::FlagOf(Flag::First) => first,
        Arg::FlagOf(Flag::Overflow) => flags.v,
        Arg::FlagOf(Flag::Zero) => flags.z,
        Arg::FlagOf(Flag::Negative) => flags.n,
        Arg::Cell(place) => image.bit(place),
        _ => image.value(arg) > 0,
    }
}
