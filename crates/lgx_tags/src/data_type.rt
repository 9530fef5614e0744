//! What is asked of the type of what was found.
ghost use Rattle.std.specs.Prelude.{◌≡◌};
ghost use Rattle.spec_language.specs.Layout.{single};
ghost use Rattle.spec_language.specs.Resolution.{integer_bits, is_array, is_integer, kind_of};

use lgx_num::Kind;
use spec_language::{Base, DataType};

/// Whether the type is an array.
pub fn is_array(of: DataType) -> bool
    ensures { result ≡ is_array of }
{
    of.dim != 0
}

/// The bits of an integer, which can be picked by number; other types have none.
pub fn integer_bits(base: Base) -> u32
    ensures { result ≡ integer_bits base }
{
    match base {
        Base::Sint => 8,
        Base::Int => 16,
        Base::Dint => 32,
        Base::Bool | Base::Timer | Base::Counter | Base::User(_) => 0,
    }
}

/// Whether the type is a single SINT, INT or DINT.
pub fn is_integer(of: DataType) -> bool
    ensures { result ≡ is_integer of }
{
    !is_array(of) && integer_bits(of.base) > 0
}

/// What is at a place of the type: its bit or its number; a place of another type is spoken of by its first DINT.
pub fn kind_of(base: Base) -> Kind
    ensures { result ≡ kind_of base }
{
    match base {
        Base::Bool => Kind::Bool,
        Base::Sint => Kind::Sint,
        Base::Int => Kind::Int,
        Base::Dint | Base::Timer | Base::Counter | Base::User(_) => Kind::Dint,
    }
}

/// The type of a single element.
pub fn single(base: Base) -> DataType
    ensures { result ≡ single base }
{
    DataType { base, dim: 0 }
}
