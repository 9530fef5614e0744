// Numbers of the kinds of value that a tag holds, and their bytes.
ghost use Rattle.std.specs.Prelude.{◌≡◌};
ghost use Rattle.lgx_num.specs.Number.{store_low, fits, bytes_in, bytes_of, dint_of};

/// What a place of the image holds.
#[derive(Clone, Copy, Default, PartialEq, Eq, Debug)]
pub enum Kind {
    /// A bit: 0 or 1.
    #[default]
    Bool,
    /// A signed number of 8 bits: -128 to 127.
    Sint,
    /// A signed number of 16 bits: -32768 to 32767.
    Int,
    /// A signed number of 32 bits: -2147483648 to 2147483647.
    Dint,
}

/// The signed number of the low 8, 16 or 32 bits of a value; for a bit the lowest one.
///
/// It is what a destination keeps of a result that is too large for it (1756-RM003, data conversions: from a larger
/// integer to a smaller one the upper part is cut off).
pub fn store_low(kind: Kind, value: i64) -> i32
    ensures { result ≡ store_low kind value }
{
    match kind {
        Kind::Bool => value.rem_euclid(2) as i32,
        Kind::Sint => i32::from((value.rem_euclid(256) as u8).cast_signed()),
        Kind::Int => i32::from((value.rem_euclid(65536) as u16).cast_signed()),
        Kind::Dint => (value.rem_euclid(4294967296) as u32).cast_signed(),
    }
}

/// How many bytes hold the bits of a kind: 1 for a bit.
pub fn bytes_in(kind: Kind) -> u32
    ensures { result ≡ bytes_in kind }
{
    match kind {
        Kind::Bool | Kind::Sint => 1,
        Kind::Int => 2,
        Kind::Dint => 4,
    }
}

/// Whether a value is in the kind's range.
pub fn fits(kind: Kind, value: i64) -> bool
    ensures { result ≡ fits kind value }
{
    match kind {
        Kind::Bool => 0 <= value && value <= 1,
        Kind::Sint => -128 <= value && value <= 127,
        Kind::Int => -32768 <= value && value <= 32767,
        Kind::Dint => -2147483648 <= value && value <= 2147483647,
    }
}

/// The four bytes of a number in two's complement, the lowest first, as they lie in the image.
pub fn bytes_of(value: i32) -> [u8; 4]
    ensures { result ≡ bytes_of value }
{
    value.to_le_bytes()
}

/// The number of four bytes, the lowest first.
pub fn dint_of(bytes: [u8; 4]) -> i32
    ensures { result ≡ dint_of bytes }
{
    i32::from_le_bytes(bytes)
}
