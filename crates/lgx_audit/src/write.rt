// The lines of a trace.
ghost use Rattle.std.specs.Prelude.{◌≡◌, ◌++◌, ◌∷◌, [], Ok, OnOk, IfOk, IsTrue, decimal};
ghost use Rattle.spec_text.specs.TextLines.{spaced};
ghost use Rattle.spec_schedule.specs.declared.trace.Table.{Table};
ghost use Rattle.spec_schedule.specs.declared.trace.TraceEvent.TheVariants.{Act};
ghost use Rattle.lgx_audit.specs.TraceTable.{is_in_table};
ghost use Rattle.lgx_audit.specs.TraceText.{mark_word, fault_word, verb_word, answer_word, ended_word, number_word, line_words, event_line, end_line, has_form};
ghost use Rattle.lgx_audit.specs.TraceReading.{trace_of};
ghost use Rattle.lgx_audit.specs.Kept.{is_kept};

use lgx_num::Memory;
use spec_schedule::{StepFault, TraceAnswer, TraceEvent, TraceMark, Verb};
use std::alloc::Global;

/// The decimal digits of a number.
fn push_number(text: &mut Vec<u8>, alloc: Global, number: u32) -> Result<(), Memory>
    ensures { OnOk result (text.new.items ≡ text.old.items ++ decimal number) }
{
    let digits = number.to_string(alloc)?;
    text.extend_from_slice(digits.as_bytes())?;
    Ok(())
}

/// A word after a space.
fn push_word(text: &mut Vec<u8>, word: &[u8]) -> Result<(), Memory>
    ensures { OnOk result (text.new.items ≡ text.old.items ++ 32 ∷ word.now) }
{
    text.push(b' ')?;
    text.extend_from_slice(word)?;
    Ok(())
}

/// A number after a space.
fn push_count(text: &mut Vec<u8>, alloc: Global, number: u32) -> Result<(), Memory>
    ensures { OnOk result (text.new.items ≡ text.old.items ++ 32 ∷ decimal number) }
{
    text.push(b' ')?;
    push_number(text, alloc, number)
}

/// A number after a space, or `-`.
fn push_named(text: &mut Vec<u8>, alloc: Global, number: Option<u32>) -> Result<(), Memory>
    ensures { OnOk result (text.new.items ≡ text.old.items ++ 32 ∷ number_word number) }
{
    match number {
        Some(number) => push_count(text, alloc, number),
        None => push_word(text, b"-"),
    }
}

/// What a step did, after a space.
fn push_mark(text: &mut Vec<u8>, alloc: Global, mark: TraceMark) -> Result<(), Memory>
    ensures { OnOk result (text.new.items ≡ text.old.items ++ 32 ∷ mark_word mark) }
{
    match mark {
        TraceMark::Plain => push_word(text, b"-"),
        TraceMark::Up => push_word(text, b"up"),
        TraceMark::Down => push_word(text, b"down"),
        TraceMark::Trigger(task) => {
            push_word(text, b"trigger:")?;
            push_number(text, alloc, task)
        }
        TraceMark::Copy => push_word(text, b"copy"),
        TraceMark::Sync => push_word(text, b"sync"),
        TraceMark::CopyEnd => push_word(text, b"copyend"),
        TraceMark::SyncEnd => push_word(text, b"syncend"),
    }
}

/// The fault of a step, after a space.
fn push_fault(text: &mut Vec<u8>, fault: StepFault) -> Result<(), Memory>
    ensures { OnOk result (text.new.items ≡ text.old.items ++ 32 ∷ fault_word fault) }
{
    match fault {
        StepFault::Plain => push_word(text, b"-"),
        StepFault::Minor => push_word(text, b"minor"),
        StepFault::Major => push_word(text, b"major"),
    }
}

/// The kind of an action, after a space.
fn push_verb(text: &mut Vec<u8>, verb: Verb) -> Result<(), Memory>
    ensures { OnOk result (text.new.items ≡ text.old.items ++ 32 ∷ verb_word verb) }
{
    match verb {
        Verb::Accept => push_word(text, b"accept"),
        Verb::Test => push_word(text, b"test"),
        Verb::Untest => push_word(text, b"untest"),
        Verb::Assemble => push_word(text, b"assemble"),
        Verb::Cancel => push_word(text, b"cancel"),
        Verb::Run => push_word(text, b"run"),
        Verb::Program => push_word(text, b"program"),
        Verb::Clear => push_word(text, b"clear"),
        Verb::Other => push_word(text, b"other"),
    }
}

/// The answer to an action, after a space.
fn push_answer(text: &mut Vec<u8>, alloc: Global, answer: TraceAnswer) -> Result<(), Memory>
    ensures { OnOk result (text.new.items ≡ text.old.items ++ 32 ∷ answer_word answer) }
{
    match answer {
        TraceAnswer::Done => push_word(text, b"ok"),
        TraceAnswer::Number(number) => {
            push_word(text, b"ok:")?;
            push_number(text, alloc, number)
        }
        TraceAnswer::No => push_word(text, b"no"),
    }
}

/// Whether a program has left its last routine, after a space.
fn push_ended(text: &mut Vec<u8>, ended: bool) -> Result<(), Memory>
    ensures { OnOk result (text.new.items ≡ text.old.items ++ 32 ∷ ended_word ended) }
{
    if ended {
        push_word(text, b"ended")
    } else {
        push_word(text, b"on")
    }
}

/// The first word of a line, and two numbers.
fn push_two(
    text: &mut Vec<u8>,
    alloc: Global,
    word: &[u8],
    first: u32,
    second: u32,
) -> Result<(), Memory>
    ensures { OnOk result (text.new.items ≡ text.old.items ++ spaced (word.now ∷ decimal first ∷ decimal second ∷ [])) }
{
    text.extend_from_slice(word)?;
    push_count(text, alloc, first)?;
    push_count(text, alloc, second)
}

/// An action's line.
fn push_act(
    text: &mut Vec<u8>,
    alloc: Global,
    lane: u32,
    verb: Verb,
    program: Option<u32>,
    answer: TraceAnswer,
    released: u32,
) -> Result<(), Memory>
    ensures { OnOk result (text.new.items ≡ text.old.items ++ spaced (line_words (Act lane verb program answer released))) }
{
    text.extend_from_slice(b"act")?;
    push_count(text, alloc, lane)?;
    push_verb(text, verb)?;
    push_named(text, alloc, program)?;
    push_answer(text, alloc, answer)?;
    push_count(text, alloc, released)
}

/// The words of an event's line.
fn push_words(text: &mut Vec<u8>, alloc: Global, event: TraceEvent) -> Result<(), Memory>
    ensures text { OnOk result (text.new.items ≡ text.old.items ++ spaced (line_words event)) }
    ensures kept { OnOk result (IsTrue (is_kept event)) }
{
    match event {
        TraceEvent::Idle => {
            text.extend_from_slice(b"idle")?;
            Ok(())
        }
        TraceEvent::Began {
            task,
            program,
            version,
        } => {
            push_two(text, alloc, b"began", task, program)?;
            push_count(text, alloc, version)
        }
        TraceEvent::Step {
            task,
            program,
            mark,
            fault,
        } => {
            push_two(text, alloc, b"step", task, program)?;
            push_mark(text, alloc, mark)?;
            push_fault(text, fault)
        }
        TraceEvent::Left {
            task,
            program,
            ended,
        } => {
            push_two(text, alloc, b"left", task, program)?;
            push_ended(text, ended)
        }
        TraceEvent::Tick {
            released,
            overlapped,
            watchdog,
        } => {
            push_two(text, alloc, b"tick", released, overlapped)?;
            push_named(text, alloc, watchdog)
        }
        TraceEvent::Act {
            lane,
            verb,
            program,
            answer,
            released,
        } => push_act(text, alloc, lane, verb, program, answer, released),
    }
}

/// Adds the line of an event, with its line feed. It may be a line that no reader takes: see [`write_line`].
pub fn push_line(text: &mut Vec<u8>, alloc: Global, event: TraceEvent) -> Result<(), Memory>
    ensures text { OnOk result (text.new.items ≡ text.old.items ++ event_line event) }
    ensures kept { OnOk result (IsTrue (is_kept event)) }
{
    push_words(text, alloc, event)?;
    text.push(b'\n')?;
    Ok(())
}

/// The line of an event, with its line feed. An edit may name a program, an accept may have a number, and no other action does;
/// an accept isn't `Done`.
pub fn write_line(alloc: Global, event: &TraceEvent) -> Result<Vec<u8>, Memory>
    requires { IsTrue (has_form event.now) }
    ensures line { IfOk result (λ text. text.items ≡ event_line event.now) }
    ensures back { (table : Table) → IsTrue (is_in_table table event.now) → IfOk result (λ text. trace_of table (text.items ++ end_line) ≡ Ok (event.now ∷ [])) }
{
    let mut text = Vec::new(alloc);
    push_line(&mut text, alloc, *event)?;
    Ok(text)
}
