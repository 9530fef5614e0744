// Where an instruction is in a project.
use lgx_rung::Op;

/// An instruction by its place: the numbers of the program, of its routine, of the rung and of the instruction in the rung, each
/// from 0; and its mnemonic.
#[derive(Clone, Copy, PartialEq, Eq, Debug)]
pub struct Use {
    pub program: u32,
    pub routine: u32,
    pub rung: u32,
    pub ins: u32,
    pub op: Op,
}
