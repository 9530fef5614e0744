// All layers.
ghost use Rattle.std.specs.Prelude.{◌≡◌, ℕ, IfOk};
ghost use Rattle.spec_machine.specs.Project.{Project};
ghost use Rattle.spec_machine.specs.ValidProject.{IsValidProject};
ghost use Rattle.lgx_explore.specs.Nodes.{IsOpened};
ghost use Rattle.lgx_explore.specs.Found.{Tells};

use crate::found::{Found, told, told_over};
use crate::layer::{close, next_nodes};
use crate::node::Node;
use crate::progress::Progress;
use lgx_num::Memory;
use spec_base::limits::MAX_IMAGE_BYTES;
use spec_explore::Question;
use spec_text::Script;
use std::alloc::Global;

/// Explores all journals of a script within the question's window, with at most `most` nodes in a layer. The error is that
/// memory ran out. Each layer after the first is reported to `progress` when it is made.
pub fn explore<N: Node, P: Progress>(
    alloc: Global,
    script: &Script,
    question: &Question,
    opening: N,
    most: usize,
    progress: &mut P,
) -> Result<Found<N>, Memory>
    ensures { IfOk result (λ found. (p : Project) → IsValidProject p → IsOpened N.stands N.keeps script.now question.now p opening → Tells N.keeps p script.now question.now found) }
{
    if most == 0 {
        return Ok(Found::Unknown(0));
    }
    let layers = script.steps + MAX_IMAGE_BYTES + 1;
    let mut nodes = Vec::new(alloc);
    nodes.push(opening)?;
    match close(alloc, script, question, &mut nodes, most) {
        Ok(()) => {}
        Err(halt) => return told(nodes, halt, 0),
    }
    for steps in 0..layers {
        if nodes.is_empty() {
            return Ok(Found::Never);
        }
        match next_nodes(alloc, script, question, nodes, most) {
            Ok(next) => nodes = next,
            Err(over) => return told_over(over, steps + 1),
        }
        match close(alloc, script, question, &mut nodes, most) {
            Ok(()) => {}
            Err(halt) => return told(nodes, halt, steps + 1),
        }
        progress.layer(steps + 1, (steps + 1) / script.pace, nodes.len());
    }
    Ok(Found::Never)
}
