// The line that says why a line wasn't done.
ghost use Rattle.std.specs.Prelude.{◌≡◌, OnOk};
ghost use Rattle.lgx_judge.specs.CauseLines.{journal_code};
ghost use Rattle.lgx_live.specs.Output.{refusal_line};

use lgx_num::Memory;
use lgx_watch::{push_count, push_word};
use spec_text::{JournalCode, JournalFault};

/// The code of a cause.
fn journal_code(code: JournalCode) -> &'static [u8]
    ensures { result.now ≡ journal_code code }
{
    match code {
        JournalCode::J1 => b"J1",
        JournalCode::J2 => b"J2",
        JournalCode::J3 => b"J3",
        JournalCode::J4 => b"J4",
        JournalCode::J5 => b"J5",
    }
}

/// Makes the line, in place of what is in the text.
#[tactic(auto, unfolding(crate::specs::Output::refusal_line))]
pub(crate) fn refusal_line(text: &mut Vec<u8>, fault: JournalFault) -> Result<(), Memory>
    ensures { OnOk result (text.new.items ≡ refusal_line fault) }
{
    text.clear();
    text.extend_from_slice(b"line")?;
    push_word(text, journal_code(fault.code))?;
    push_count(text, fault.line)?;
    text.push(b'\n')?;
    Ok(())
}
