// The canonical text of a journal.
ghost use Rattle.std.specs.Prelude.{◌≡◌, ◌++◌, ◌∷◌, [], Ok, OnOk, IfOk, IsTrue, codes, decimal};
ghost use Rattle.std.specs.Fmt.{signed_decimal};
ghost use Rattle.std.specs.List.{flat_map, list_all};
ghost use Rattle.lgx_num.specs.Name.{is_name};
ghost use Rattle.spec_text.specs.TextLines.{spaced, line_of};
ghost use Rattle.spec_text.specs.ActionText.{text_word, edit_words, edits_text, action_words};
ghost use Rattle.spec_text.specs.JournalText.{lane_words, event_words, joined, text, journal_of};
ghost use Rattle.spec_machine.specs.EditText.{is_edit_text};
ghost use Rattle.spec_machine.specs.declared.event.Action.TheVariants.{Accept as Accepts};
ghost use Rattle.lgx_journal.specs.Runs.{seen_run};
ghost use Rattle.lgx_journal.specs.Written.{event_run, is_kept_edit, is_kept_action, is_kept_run, is_placed, AreWritten, HasLanes, HasOneReading, IsLineOfOne, IsReadable};

use crate::journal::Journal;
use crate::runs::EventsLent;
use itoa::Buffer;
use lgx_num::{Memory, Name};
use spec_base::limits::OWN_LANE;
use spec_machine::{Accept, Action, Event, RungEdit, Text};
use std::alloc::Global;

/// The decimal digits of a number.
fn push_number(text: &mut Vec<u8>, alloc: Global, number: u32) -> Result<(), Memory>
    ensures { OnOk result (text.new.items ≡ text.old.items ++ decimal number) }
{
    let digits = number.to_string(alloc)?;
    text.extend_from_slice(digits.as_bytes())?;
    Ok(())
}

/// The decimal digits of a value, with `-` before them if it is negative.
fn push_value(text: &mut Vec<u8>, alloc: Global, value: i32) -> Result<(), Memory>
    ensures { OnOk result (text.new.items ≡ text.old.items ++ signed_decimal value) }
{
    let digits = value.to_string(alloc)?;
    text.extend_from_slice(digits.as_bytes())?;
    Ok(())
}

/// A verb, and the number of a rung after a space.
fn push_indexed(text: &mut Vec<u8>, alloc: Global, verb: u8, index: u32) -> Result<(), Memory>
    ensures { OnOk result (text.new.items ≡ text.old.items ++ verb ∷ 32 ∷ decimal index) }
{
    text.push(verb)?;
    text.push(b' ')?;
    push_number(text, alloc, index)
}

/// A verb, the number of a rung, and a text if there is one.
fn push_text_edit(
    text: &mut Vec<u8>,
    alloc: Global,
    verb: u8,
    index: u32,
    rung: &Text,
) -> Result<(), Memory>
    ensures text { OnOk result (text.new.items ≡ text.old.items ++ spaced ((verb ∷ []) ∷ decimal index ∷ text_word rung.now)) }
    ensures kept { OnOk result (IsTrue (is_edit_text rung.now)) }
{
    push_indexed(text, alloc, verb, index)?;
    match rung.bytes() {
        [] => Ok(()),
        bytes => {
            text.push(b' ')?;
            text.extend_from_slice(bytes)?;
            Ok(())
        }
    }
}

/// An edit of a rung.
fn push_edit(text: &mut Vec<u8>, alloc: Global, edit: &RungEdit) -> Result<(), Memory>
    ensures text { OnOk result (text.new.items ≡ text.old.items ++ spaced (edit_words edit.now)) }
    ensures kept { OnOk result (IsTrue (is_kept_edit edit.now)) }
{
    match edit {
        RungEdit::Replace(index, rung) => push_text_edit(text, alloc, b'r', *index, rung),
        RungEdit::Insert(index, rung) => push_text_edit(text, alloc, b'i', *index, rung),
        RungEdit::Delete(index) => push_indexed(text, alloc, b'd', *index),
    }
}

/// An edit after ` | `.
fn push_part(text: &mut Vec<u8>, alloc: Global, edit: &RungEdit) -> Result<(), Memory>
    ensures text { OnOk result (text.new.items ≡ text.old.items ++ (codes " | " ++ spaced (edit_words edit.now))) }
    ensures kept { OnOk result (IsTrue (is_kept_edit edit.now)) }
{
    text.extend_from_slice(b" | ")?;
    push_edit(text, alloc, edit)
}

/// Edits, each after ` | `.
fn push_parts(text: &mut Vec<u8>, alloc: Global, edits: &[RungEdit]) -> Result<(), Memory>
    ensures text { OnOk result (text.new.items ≡ text.old.items ++ flat_map (λ e. codes " | " ++ spaced (edit_words e)) edits.now) }
    ensures kept { OnOk result (IsTrue (list_all is_kept_edit edits.now)) }
{
    for edit in edits {
        push_part(text, alloc, edit)?;
    }
    Ok(())
}

/// Edits with ` | ` between them.
fn push_edits(text: &mut Vec<u8>, alloc: Global, edits: &[RungEdit]) -> Result<(), Memory>
    ensures text { OnOk result (text.new.items ≡ text.old.items ++ edits_text edits.now) }
    ensures kept { OnOk result (IsTrue (list_all is_kept_edit edits.now)) }
{
    let [first, others @ ..] = edits else {
        return Ok(());
    };
    push_edit(text, alloc, first)?;
    push_parts(text, alloc, others)
}

/// The accept of edits.
fn push_accept(text: &mut Vec<u8>, alloc: Global, accept: &Accept) -> Result<(), Memory>
    ensures text { OnOk result (text.new.items ≡ text.old.items ++ spaced (codes "accept" ∷ accept.now.program ∷ accept.now.routine ∷ edits_text accept.now.edits ∷ [])) }
    ensures kept { OnOk result (IsTrue (is_kept_action (Accepts accept.now))) }
{
    text.extend_from_slice(b"accept ")?;
    text.extend_from_slice(accept.program.bytes())?;
    text.push(b' ')?;
    text.extend_from_slice(accept.routine.bytes())?;
    text.push(b' ')?;
    push_edits(text, alloc, accept.edits.as_slice())
}

/// A verb and a name.
fn push_named(text: &mut Vec<u8>, verb: &[u8], name: &Name) -> Result<(), Memory>
    ensures text { OnOk result (text.new.items ≡ text.old.items ++ spaced (verb.now ∷ name.now ∷ [])) }
    ensures kept { OnOk result (IsTrue (is_name name.now)) }
{
    text.extend_from_slice(verb)?;
    text.push(b' ')?;
    text.extend_from_slice(name.bytes())?;
    Ok(())
}

/// A verb, a connection and the number of a word.
fn push_word(
    text: &mut Vec<u8>,
    alloc: Global,
    verb: &[u8],
    conn: &Name,
    word: u32,
) -> Result<(), Memory>
    ensures text { OnOk result (text.new.items ≡ text.old.items ++ spaced (verb.now ∷ conn.now ∷ decimal word ∷ [])) }
    ensures kept { OnOk result (IsTrue (is_name conn.now)) }
{
    push_named(text, verb, conn)?;
    text.push(b' ')?;
    push_number(text, alloc, word)
}

/// A value that comes in.
fn push_word_in(
    text: &mut Vec<u8>,
    alloc: Global,
    conn: &Name,
    word: u32,
    value: i32,
) -> Result<(), Memory>
    ensures text { OnOk result (text.new.items ≡ text.old.items ++ spaced (codes "in" ∷ conn.now ∷ decimal word ∷ signed_decimal value ∷ [])) }
    ensures kept { OnOk result (IsTrue (is_name conn.now)) }
{
    push_word(text, alloc, b"in", conn, word)?;
    text.push(b' ')?;
    push_value(text, alloc, value)
}

/// Adds the words of a force.
fn push_force(
    text: &mut Vec<u8>,
    alloc: Global,
    conn: &Name,
    word: u32,
    mask: i32,
    value: i32,
) -> Result<(), Memory>
    ensures text { OnOk result (text.new.items ≡ text.old.items ++ spaced (codes "force" ∷ conn.now ∷ decimal word ∷ signed_decimal mask ∷ signed_decimal value ∷ [])) }
    ensures kept { OnOk result (IsTrue (is_name conn.now)) }
{
    push_word(text, alloc, b"force", conn, word)?;
    text.push(b' ')?;
    push_value(text, alloc, mask)?;
    text.push(b' ')?;
    push_value(text, alloc, value)
}

/// Adds bytes.
fn push_bytes(text: &mut Vec<u8>, bytes: &[u8]) -> Result<(), Memory>
    ensures { OnOk result (text.new.items ≡ text.old.items ++ bytes.now) }
{
    text.extend_from_slice(bytes)?;
    Ok(())
}

/// Adds the words of an action.
fn push_action(text: &mut Vec<u8>, alloc: Global, action: &Action) -> Result<(), Memory>
    ensures text { OnOk result (text.new.items ≡ text.old.items ++ spaced (action_words action.now)) }
    ensures kept { OnOk result (IsTrue (is_kept_action action.now)) }
{
    match action {
        Action::WordIn { conn, word, value } => push_word_in(text, alloc, conn, *word, *value),
        Action::WordOut { conn, word } => push_word(text, alloc, b"out", conn, *word),
        Action::Accept(accept) => push_accept(text, alloc, accept),
        Action::Test(program) => push_named(text, b"test", program),
        Action::Untest(program) => push_named(text, b"untest", program),
        Action::Assemble(program) => push_named(text, b"assemble", program),
        Action::Cancel(program) => push_named(text, b"cancel", program),
        Action::ForceInstall {
            conn,
            word,
            mask,
            value,
        } => push_force(text, alloc, conn, *word, *mask, *value),
        Action::ForceEnable => push_bytes(text, b"force enable"),
        Action::ForceDisable => push_bytes(text, b"force disable"),
        Action::ForceRemove => push_bytes(text, b"force remove"),
        Action::ModeRun => push_bytes(text, b"mode run"),
        Action::ModeProgram => push_bytes(text, b"mode program"),
        Action::Clear => push_bytes(text, b"clear"),
    }
}

/// An action of a lane.
fn push_lane_action(
    text: &mut Vec<u8>,
    alloc: Global,
    lane: u32,
    action: &Action,
) -> Result<(), Memory>
    ensures text { OnOk result (text.new.items ≡ text.old.items ++ spaced (lane_words lane ++ action_words action.now)) }
    ensures kept { OnOk result (IsTrue (is_kept_action action.now)) }
{
    if lane != OWN_LANE {
        text.push(b'@')?;
        push_number(text, alloc, lane)?;
        text.push(b' ')?;
    }
    push_action(text, alloc, action)
}

/// A count of processor steps, or of ticks. Its digits are made without memory of their own.
fn push_count(text: &mut Vec<u8>, verb: &[u8], count: u32) -> Result<(), Memory>
    ensures { OnOk result (text.new.items ≡ text.old.items ++ spaced (verb.now ∷ decimal count ∷ [])) }
{
    let mut digits = Buffer::new();
    text.extend_from_slice(verb)?;
    text.push(b' ')?;
    text.extend_from_slice(digits.format(count).as_bytes())?;
    Ok(())
}

/// Adds the line of a run, with its line feed.
fn push_run(text: &mut Vec<u8>, alloc: Global, run: EventsLent<'_>) -> Result<(), Memory>
    ensures text { OnOk result (text.new.items ≡ text.old.items ++ line_of (event_words (seen_run run.entry).event (seen_run run.entry).count)) }
    ensures kept { OnOk result (IsTrue (is_kept_run (seen_run run.entry))) }
{
    match run {
        EventsLent::Cpu(count) => push_count(text, b"cpu", count)?,
        EventsLent::Tick(count) => push_count(text, b"tick", count)?,
        EventsLent::Act(lane, action) => push_lane_action(text, alloc, lane, action)?,
    }
    text.push(b'\n')?;
    Ok(())
}

/// Adds the line of an event that comes `count` times, with its line feed: see [`write_event`].
pub fn push_event(
    text: &mut Vec<u8>,
    alloc: Global,
    event: &Event,
    count: u32,
) -> Result<(), Memory>
    ensures text { OnOk result (text.new.items ≡ text.old.items ++ line_of (event_words event.now count)) }
    ensures kept { OnOk result (IsTrue (is_kept_run (event_run event.now count))) }
{
    match event {
        Event::Cpu => push_run(text, alloc, EventsLent::Cpu(count)),
        Event::Tick => push_run(text, alloc, EventsLent::Tick(count)),
        Event::Act(lane, action) => push_run(text, alloc, EventsLent::Act(*lane, action)),
    }
}

/// The line of an event that comes `count` times, with its line feed. An action's line has no count, and lane 31 isn't named. A
/// lane above 31 is written as it is; no reader takes such a line.
pub fn write_event(alloc: Global, event: &Event, count: u32) -> Result<Vec<u8>, Memory>
    ensures text { IfOk result (λ line. line.items ≡ line_of (event_words event.now count)) }
    ensures kept { OnOk result (IsTrue (is_kept_run (event_run event.now count))) }
    ensures one_reading { IfOk result (λ line. IsTrue (is_placed (event_run event.now count)) → IsLineOfOne (event_run event.now count) line.items) }
{
    let mut line = Vec::new(alloc);
    push_event(&mut line, alloc, event, count)?;
    Ok(line)
}

/// The canonical text: a line for each run, and the line `end`. It may have lines of more than 65,536 bytes, or more
/// events than a journal that is read, and lanes above 31; then no reader takes it.
pub fn write_journal(alloc: Global, journal: &Journal) -> Result<Vec<u8>, Memory>
    ensures text { IfOk result (λ t. t.items ≡ text journal.now.events) }
    ensures written { IfOk result (λ _. HasLanes journal.now.events → AreWritten (joined journal.now.events)) }
    ensures one_reading { IfOk result (λ t. HasLanes journal.now.events → HasOneReading journal.now.events t.items) }
    ensures read_back { IfOk result (λ t. IsReadable journal.now.events → journal_of t.items ≡ Ok journal.now.events) }
{
    let mut text = Vec::new(alloc);
    for i in 0..journal.runs() {
        push_run(&mut text, alloc, journal.run_at(i))?;
    }
    text.extend_from_slice(b"end\n")?;
    Ok(text)
}
