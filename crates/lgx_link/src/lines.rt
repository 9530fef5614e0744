// The lines of the text.
ghost use Rattle.std.specs.Prelude.{◌≡◌, ◌≤◌, [], ◌∷◌, ◌++◌, codes, decimal, drop, flat_map, length, IfOk, OnOk};
ghost use Rattle.spec_text.specs.TextLines.{line_of};
ghost use Rattle.spec_text.specs.ReportText.{line_text};
ghost use Rattle.spec_link.specs.LinkOutput.{answer_lines, written};
ghost use Rattle.lgx_judge.specs.declared.ends.End.{End as Ends};
ghost use Rattle.lgx_judge.specs.ReportLines.{end_line};

use lgx_judge::{End, end_line};
use lgx_num::Memory;
use lgx_record::Recording;
use lgx_watch::{push_count, push_line_text, push_word};
use spec_link::LinkAnswer;

/// Adds the lines of a log from this one on, each with the letter of its controller before it.
pub(crate) fn push_lines(
    text: &mut Vec<u8>,
    letter: &[u8],
    recording: &Recording,
    from: u32,
) -> Result<(), Memory>
    ensures { OnOk result (text.new.items ≡ text.old.items ++ flat_map (λ s. letter.now ++ line_text recording.now.names s) (drop from recording.now.log.lines)) }
{
    let (log, names) = (recording.log(), recording.names());
    for i in from..log.lines() {
        text.extend_from_slice(letter)?;
        push_line_text(text, log, i, names)?;
    }
    Ok(())
}

/// Adds the end line of a report, with the letter of its controller before it.
pub(crate) fn push_end(
    text: &mut Vec<u8>,
    letter: &[u8],
    recording: &Recording,
    end: End,
) -> Result<(), Memory>
    ensures { OnOk result (text.new.items ≡ text.old.items ++ (letter.now ++ end_line recording.now.log end)) }
{
    let mut line = Vec::new(*text.allocator());
    end_line(&mut line, recording.log(), end)?;
    text.extend_from_slice(letter)?;
    text.extend_from_slice(&line)?;
    Ok(())
}

/// Adds what a delivery is answered.
fn push_delivered(text: &mut Vec<u8>, number: u32, how: &[u8]) -> Result<(), Memory>
    ensures { OnOk result (text.new.items ≡ text.old.items ++ line_of (codes "deliver" ∷ decimal number ∷ how.now ∷ [])) }
{
    text.extend_from_slice(b"deliver")?;
    push_count(text, u64::from(number))?;
    push_word(text, how)?;
    text.push(b'\n')?;
    Ok(())
}

/// Adds what a sending is answered.
fn push_sent(text: &mut Vec<u8>, number: u32) -> Result<(), Memory>
    ensures { OnOk result (text.new.items ≡ text.old.items ++ line_of (codes "send" ∷ decimal number ∷ [])) }
{
    text.extend_from_slice(b"send")?;
    push_count(text, u64::from(number))?;
    text.push(b'\n')?;
    Ok(())
}

/// Adds what a line is answered, if it is one of the link's own.
pub(crate) fn push_answer(text: &mut Vec<u8>, answer: LinkAnswer) -> Result<(), Memory>
    ensures { OnOk result (text.new.items ≡ text.old.items ++ flat_map written (answer_lines answer)) }
{
    match answer {
        LinkAnswer::Events => Ok(()),
        LinkAnswer::SendHeld => {
            text.extend_from_slice(b"send held\n")?;
            Ok(())
        }
        LinkAnswer::Sent(number) => push_sent(text, number),
        LinkAnswer::NotSent(number) => push_delivered(text, number, b"none"),
        LinkAnswer::DeliverHeld(number) => push_delivered(text, number, b"held"),
        LinkAnswer::Stale(number) => push_delivered(text, number, b"stale"),
        LinkAnswer::New(number) => push_delivered(text, number, b"new"),
    }
}
