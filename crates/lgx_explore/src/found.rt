// What is answered for all journals of a script.
ghost use Rattle.std.specs.Prelude.{◌<◌, length, ℕ, IfOk};
ghost use Rattle.lgx_explore.specs.Shown.{IfShown};
ghost use Rattle.lgx_explore.specs.Found.{IsToldBy, IsToldOf};

use crate::halt::{Halt, Over};
use crate::node::{Next, Stop};
use lgx_num::Memory;

/// What is answered for all journals of a script within the question's window.
#[derive(Drop)]
pub enum Found<N: Drop> {
    /// No line of the question ever holds.
    Never,
    /// After the journal that the node keeps and this event, the line of the question with this number, from 0, holds as
    /// the first. No line holds after fewer processor steps.
    Shown(N, Next, u32),
    /// After fewer processor steps than this no line holds, but with this many there are more nodes than a layer may have.
    Unknown(u32),
}

/// What is answered at a halt in the layer of `steps` processor steps.
pub(crate) fn told<N: Drop>(nodes: Vec<N>, halt: Halt, steps: u32) -> Result<Found<N>, Memory>
    requires { IfShown halt.stop (λ _ _. halt.at < length nodes.items) }
    ensures { IfOk result (IsToldBy nodes.items halt.at steps halt.stop) }
{
    let mut nodes = nodes;
    match halt.stop {
        Stop::Shown(made, line) => Ok(Found::Shown(nodes.swap_remove(halt.at), made, line)),
        Stop::Limit => Ok(Found::Unknown(steps)),
        Stop::Memory => Err(Memory),
    }
}

/// What is answered where the layer of `steps` processor steps isn't made.
pub(crate) fn told_over<N: Drop>(over: Over<N>, steps: u32) -> Result<Found<N>, Memory>
    ensures { IfOk result (IsToldOf steps over) }
{
    match over {
        Over::Shown(node, made, line) => Ok(Found::Shown(node, made, line)),
        Over::Limit => Ok(Found::Unknown(steps)),
        Over::Memory => Err(Memory),
    }
}
