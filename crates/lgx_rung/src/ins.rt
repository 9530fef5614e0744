// Checked instructions.
use crate::args::Args;
use crate::op::Op;

/// An instruction with its checked operands, at most [`spec_base::limits::MAX_OPERANDS`].
#[derive(Drop)]
pub struct Ins {
    pub op: Op,
    pub args: Args,
}
