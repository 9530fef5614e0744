// Why a file is no project.
use lgx_num::Items;
use lgx_rung::{CheckFault, TextFault};
use spec_language::{TagCode, TypeCode};

/// Why a file is no project: P1 it is no JSON text; P2 a field is missing; P3 an object has a field that it may not have; P4
/// a value is of another kind than the field wants; P5 a value isn't one of those that may be there; P6 a name is repeated; P7 a
/// program isn't in one task's list, once; P8 a second continuous task; P9 a declared type or tag, or a text that is to name a tag,
/// is refused; P10 a rung's text or a routine is refused; P11 there are too many.
#[derive(Clone, Copy, PartialEq, Eq, Debug)]
pub enum ProjectCode {
    P1,
    P2,
    P3,
    P4,
    P5,
    P6,
    P7,
    P8,
    P9,
    P10,
    P11,
}

/// What the refusal is of: at P9 a type or a tag, at P10 a rung's text or a routine's rungs.
#[derive(Clone, Copy, PartialEq, Eq, Debug)]
pub enum Inner {
    Nothing,
    OfType(TypeCode),
    OfTag(TagCode),
    OfText(TextFault),
    OfCheck(CheckFault),
}

/// The bytes of a path: keys, and places in lists counted from 0, from the top of the file down, with dots between them.
/// The path of the top itself has no bytes.
pub type PathText = Items<u8>;

/// The first refusal of a file, and where it is.
#[derive(Drop)]
pub struct ProjectFault {
    pub code: ProjectCode,
    pub path: PathText,
    pub inner: Inner,
}
