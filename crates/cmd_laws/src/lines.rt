// The line of a breach.
ghost use Rattle.std.specs.Prelude.{◌≡◌, IfOk};
ghost use Rattle.cmd_laws.specs.LawsPlan.{law_word, no_line};

use lgx_laws::Law;
use lgx_num::Memory;
use lgx_watch::{push_count, push_word};
use std::alloc::Global;

/// The name of a law.
fn law_word(law: Law) -> &'static [u8]
    ensures { result.now ≡ law_word law }
{
    match law {
        Law::Regions => b"regions",
        Law::Copies => b"copies",
        Law::Watchdogs => b"watchdogs",
        Law::Releases => b"releases",
        Law::Starts => b"starts",
        Law::Triggers => b"triggers",
        Law::Scans => b"scans",
        Law::Modes => b"modes",
        Law::Edits => b"edits",
        Law::Numbers => b"numbers",
    }
}

/// The law that is broken, and the event that breaks it.
pub(crate) fn no_line(alloc: Global, law: Law, at: u64) -> Result<Vec<u8>, Memory>
    ensures { IfOk result (λ text. text.items ≡ no_line (record { law = law; at = at })) }
{
    let mut text = Vec::new(alloc);
    text.extend_from_slice(b"no")?;
    push_word(&mut text, law_word(law))?;
    push_count(&mut text, at)?;
    text.push(b'\n')?;
    Ok(text)
}
