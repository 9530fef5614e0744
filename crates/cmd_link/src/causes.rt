// The lines that say why one of the three files is refused.
ghost use Rattle.std.specs.Prelude.{◌≡◌, ◌++◌, IfOk};
ghost use Rattle.cmd_link.specs.LinkCauses.{link_code, link_cause_line};

use lgx_num::Memory;
use lgx_watch::{push_count, push_word};
use spec_link::{LinkCode, LinkFault};
use std::alloc::Global;

/// The code for which a line is none of a link script.
fn link_code(code: LinkCode) -> &'static [u8]
    ensures { result.now ≡ link_code code }
{
    match code {
        LinkCode::J1 => b"J1",
        LinkCode::J2 => b"J2",
        LinkCode::J4 => b"J4",
        LinkCode::U1 => b"U1",
    }
}

/// The line that says why a file is no link script.
#[tactic(auto, unfolding(crate::specs::LinkCauses::link_cause_line))]
pub(crate) fn link_cause_line(alloc: Global, fault: LinkFault) -> Result<Vec<u8>, Memory>
    ensures { IfOk result (λ text. text.items ≡ link_cause_line fault) }
{
    let mut text = Vec::new(alloc);
    text.extend_from_slice(b"link")?;
    push_word(&mut text, link_code(fault.code))?;
    push_word(&mut text, b"line")?;
    push_count(&mut text, fault.line)?;
    text.push(b'\n')?;
    Ok(text)
}

/// A line with the letter of its controller before it.
pub(crate) fn lettered(alloc: Global, letter: &[u8], line: &[u8]) -> Result<Vec<u8>, Memory>
    ensures { IfOk result (λ text. text.items ≡ letter.now ++ line.now) }
{
    let mut text = Vec::from_slice(alloc, letter)?;
    text.extend_from_slice(line)?;
    Ok(text)
}
