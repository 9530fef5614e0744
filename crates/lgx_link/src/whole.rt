// The whole text of a link script.
ghost use Rattle.std.specs.Prelude.{◌≡◌, IfOk};
ghost use Rattle.spec_link.specs.Consumed.{AreDints};
ghost use Rattle.spec_link.specs.LinkOutput.{link_output, linked_journals};
ghost use Rattle.lgx_link.specs.Running.{HasRoom};

use crate::running::Running;
use lgx_edit::Plant;
use lgx_num::Memory;
use spec_link::LinkScript;
use std::alloc::Global;

/// The text of what two projects' controllers do as a link script says: the lines of both reports as their events come, each
/// with `a ` or `b ` before it, the answers of sendings and deliveries, and both end lines. Out of memory is the one fault.
///
/// All words that were sent are of 32 bits.
pub fn link_text(alloc: Global, a: Plant, b: Plant, script: &LinkScript) -> Result<Vec<u8>, Memory>
    requires { HasRoom 0 0 0 script.now.steps }
    ensures text { IfOk result (λ text. text.items ≡ link_output a b script.now) }
    ensures range { IfOk result (λ _. AreDints (linked_journals a b script.now).sent) }
{
    let mut running = Running::open(alloc, a, b, script)?;
    let mut text = Vec::new(alloc);
    for step in script.steps.as_slice() {
        running.follow(&mut text, step)?;
    }
    running.push_ends(&mut text)?;
    Ok(text)
}
