// What an operand holds.
ghost use Rattle.std.specs.Prelude.{◌≡◌, length};
ghost use Rattle.spec_scan.specs.Arguments.{value_of};
ghost use Rattle.spec_scan.specs.ArgBounds.{ArgInBounds};

use lgx_image::Image;
use lgx_num::Kind;
use spec_scan::Arg;

/// The number that an operand is, or that is at its place; 0 for any other operand. Most places hold a DINT, so that is asked
/// first.
#[inline(always)]
pub(crate) fn number(arg: Arg, image: &Image) -> i32
    requires { ArgInBounds arg (length image.now.bytes) }
    ensures { result ≡ value_of image.now.bytes arg }
{
    match arg {
        Arg::Number(number) => number,
        Arg::Cell(place) => match place.kind {
            Kind::Dint => image.dint(place.at / 8),
            _ => image.get(place),
        },
        _ => 0,
    }
}
