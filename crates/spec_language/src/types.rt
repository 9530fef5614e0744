// Data types, and structures as a project declares them.
use lgx_num::{Items, Name};

/// What an element is: one of the built-in types, or the structure of this number in the list of declarations.
#[derive(Clone, Copy, PartialEq, Eq, Debug)]
pub enum Base {
    Bool,
    Sint,
    Int,
    Dint,
    Timer,
    Counter,
    User(u32),
}

/// A type: an element, or an array of `dim` elements if `dim` isn't 0.
#[derive(Clone, Copy, PartialEq, Eq, Debug)]
pub struct DataType {
    pub base: Base,
    pub dim: u32,
}

/// A structure: its name and its members, in order.
#[derive(Drop)]
pub struct TypeDecl {
    pub name: Name,
    pub members: Items<MemberDecl>,
}

/// A member of a structure: its name, the name of its type, and its number of elements, 0 for no array.
#[derive(Drop)]
pub struct MemberDecl {
    pub name: Name,
    pub of: Name,
    pub dim: u32,
}

/// What is wrong with declared structures: an unknown type (Y1), a repeated member (Y2), a structure that reaches itself
/// (Y3), a BOOL array whose length isn't a multiple of 32 (Y4), a structure over 4,096 bytes (Y5), a name that is
/// repeated or built in (Y6).
#[derive(Clone, Copy, PartialEq, Eq, Debug)]
pub enum TypeCode {
    Y1,
    Y2,
    Y3,
    Y4,
    Y5,
    Y6,
}

/// A fault of a declaration; at Y1, Y2 and Y4 it is of a member.
#[derive(Clone, Copy, PartialEq, Eq, Debug)]
pub struct TypeFault {
    pub code: TypeCode,
    pub decl: u32,
    pub member: Option<u32>,
}

/// A member's type, and its first bit, counted from the structure's first.
#[derive(Clone, Copy, PartialEq, Eq, Debug)]
pub struct Member {
    pub of: DataType,
    pub at: u32,
}
