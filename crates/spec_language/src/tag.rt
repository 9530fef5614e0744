// Scopes of tags, and what an operand's text names.
use crate::types::DataType;
use lgx_num::Steps;

/// Where a tag is declared: for all programs, or in the program of this number.
#[derive(Clone, Copy, PartialEq, Eq, Debug)]
pub enum Scope {
    Controller,
    Program(u32),
}

/// What is wrong with a tag or an operand: no tag name (G1), a name repeated in its scope (G2), an unknown tag (G3), an
/// unknown member (G4), a subscript or bit number out of range or at what has none (G5), a subscript that is no integer
/// place (G6), an alias whose chain doesn't end (G7), an image over `MAX_IMAGE_BYTES` (G8), more than `MAX_SUBSCRIPTS` variable subscripts (G9),
/// no operand form (G10).
#[derive(Clone, Copy, PartialEq, Eq, Debug)]
pub enum TagCode {
    G1,
    G2,
    G3,
    G4,
    G5,
    G6,
    G7,
    G8,
    G9,
    G10,
}

/// What an operand's text names: its first bit in the image, which variable subscripts move, its type, and the byte after
/// its tag.
#[derive(Drop)]
pub struct Found {
    pub at: u32,
    pub steps: Steps,
    pub of: DataType,
    pub stop: u32,
}
