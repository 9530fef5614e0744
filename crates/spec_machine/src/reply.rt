// Replies to actions, with their refusals.
use lgx_rung::{CheckFault, TextFault};
use spec_tables::{ConnFault, ForceFault};

/// Why an edit is refused: no program (E1), no routine (E2), another lane owns the program's edits (E3, with the owner),
/// the edit of a rung that isn't there (E5, with the edit's place from 0), of a rung that an edit replaced or deleted before
/// (E6, likewise), with a text that is no rung (E7, likewise), a merged routine that is refused (E8), more than
/// `MAX_PROGRAM_INSTRUCTIONS` (E9), nothing accepted (E10), already tested (E11), not tested (E12).
#[derive(Clone, Copy, PartialEq, Eq, Debug)]
pub enum EditFault {
    E1,
    E2,
    E3(u32),
    E5(u32),
    E6(u32),
    E7(u32, TextFault),
    E8(CheckFault),
    E9,
    E10,
    E11,
    E12,
}

/// Why a change of mode is refused: it is the present mode (M1), the controller is faulted (M2), it isn't (M3).
#[derive(Clone, Copy, PartialEq, Eq, Debug)]
pub enum ModeFault {
    M1,
    M2,
    M3,
}

/// Tasks run in `Run` alone.
#[derive(Clone, Copy, PartialEq, Eq, Debug)]
pub enum Mode {
    Program,
    Run,
    Faulted,
}

/// The answer to an action: done, the value of a word out, an accept's number, held while a CPS is in progress, or a refusal.
#[derive(Clone, Copy, PartialEq, Eq, Debug)]
pub enum Reply {
    Done,
    Word(i32),
    Version(u32),
    Held,
    Mode(ModeFault),
    Conn(ConnFault),
    Force(ForceFault),
    Edit(EditFault),
}
