// Faults of a rung: of its text, and of its operands.
/// What is wrong with a rung's text, at the first fault from the left (profile).
#[derive(Clone, Copy, PartialEq, Eq, Debug)]
pub enum TextCode {
    /// A byte continues no rung.
    T1,
    /// Letters in an element's place are no mnemonic.
    T2,
    /// The text ends while a fork or a parenthesis is open, or right after a mnemonic.
    T3,
    /// The text ends elsewhere without a semicolon.
    T4,
    /// One fork more than may be open.
    T5,
}

/// The first fault of a rung's text, and its place in bytes from the text's start: the letters' first byte, the byte, or
/// at the text's end its length.
#[derive(Clone, Copy, PartialEq, Eq, Debug)]
pub struct TextFault {
    pub code: TextCode,
    pub at: u32,
}

/// What is wrong with an instruction (profile): of the first one at fault the least code that applies.
#[derive(Clone, Copy, PartialEq, Eq, Debug)]
pub enum CheckCode {
    /// The mnemonic has more operands or fewer.
    C1,
    /// An operand isn't of the kind that is wanted, is no name where one is, or no count of inputs.
    C2,
    /// There is a number or a flag where a place is wanted.
    C3,
    /// No tag has the name.
    C4,
    /// No member has the name.
    C5,
    /// An element or a bit that isn't there.
    C6,
    /// A subscript that is no integer place, or has a variable subscript itself.
    C7,
    /// A fifth variable subscript.
    C8,
    /// The text is no form of an operand.
    C9,
    /// A number is outside its range.
    C10,
    /// JSR names no routine of the program.
    C11,
    /// JMP names no label of the routine.
    C12,
    /// LBL repeats a label.
    C13,
    /// LBL isn't the first element of its rung.
    C14,
    /// EVENT names no event task.
    C15,
    /// One instruction more than a routine may have.
    C16,
    /// SBR isn't the first element of its routine's first rung.
    C17,
}

/// The first fault of a routine: its rung, and the number of the instruction in it in the order of the text, from 0.
#[derive(Clone, Copy, PartialEq, Eq, Debug)]
pub struct CheckFault {
    pub code: CheckCode,
    pub rung: u64,
    pub ins: u32,
}
