// Sizes of types.
ghost use Rattle.std.specs.Prelude.{◌≡◌, ◌<◌, ◌^◌};
ghost use Rattle.spec_language.specs.Layout.{element_in, size_in};

use spec_base::limits::{COUNTER_BYTES, TIMER_BYTES};
use spec_language::{Base, DataType};

/// The size of an element in bytes, by those of the structures.
fn element_in(sizes: &[u32], base: Base) -> u32
    ensures { result ≡ element_in sizes.now base }
{
    match base {
        Base::Bool | Base::Sint => 1,
        Base::Int => 2,
        Base::Dint => 4,
        Base::Timer => TIMER_BYTES,
        Base::Counter => COUNTER_BYTES,
        Base::User(i) => sizes.get(i as usize).copied().unwrap_or(0),
    }
}

/// The size of a type in bytes, by those of the structures.
pub fn size_in(sizes: &[u32], of: DataType) -> u32
    requires { size_in sizes.now of < 2 ^ 32 }
    ensures { result ≡ size_in sizes.now of }
{
    if of.dim == 0 {
        return element_in(sizes, of.base);
    }
    if of.base == Base::Bool {
        return of.dim / 8;
    }
    of.dim * element_in(sizes, of.base)
}
