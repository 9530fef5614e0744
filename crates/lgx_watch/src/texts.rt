// The texts of the report's lines.
ghost use Rattle.std.specs.Prelude.{◌≡◌, ◌+◌, ◌≤◌, ◌<◌, [], ◌∷◌, ◌++◌, length, slice_get, option_map, codes, Some, IfOk, OnOk};
ghost use Rattle.std.specs.Fmt.{decimal, signed_decimal};
ghost use Rattle.spec_machine.specs.declared.line.Line.TheVariants.{Fault as FaultLine};
ghost use Rattle.spec_text.specs.ReportText.{name, program_or_dash, fault_number, answer, line_words, line_text, end_text};
ghost use Rattle.lgx_watch.specs.declared.texts.TheConstants.{NAMES_ROOM};
ghost use Rattle.lgx_watch.specs.Spaces.{after_spaces};

use crate::answers::push_answer;
use crate::codes::{mode_text, severity};
use crate::digits::{push_count, push_number, push_pair, push_value, push_word};
use crate::heads::{push_head, write_count, write_value, write_word};
use crate::log::{Log, Stamped};
use crate::names::Names;
use lgx_num::{Items, Memory};
use spec_machine::{Line, Mode, Reply};
use spec_tables::Fault;
use std::alloc::Global;

/// The bytes for which a text takes room at first.
const LINE_ROOM: usize = 128;

/// The bytes that the names of a line may have, so that all of the line has room in [`LINE_ROOM`] bytes.
const NAMES_ROOM: usize = 80;

/// The name with a number; no byte if there is no such number.
#[inline(always)]
fn name_of(names: &[Items<u8>], number: u32) -> &[u8]
    ensures { result.now ≡ name names.now number }
{
    match names.get(number as usize) {
        Some(found) => found.as_slice(),
        None => b"",
    }
}

/// Adds the name with a number; none if there is no such number.
fn push_name(text: &mut Vec<u8>, names: &[Items<u8>], number: u32) -> Result<(), Memory>
    ensures { OnOk result (text.new.items ≡ text.old.items ++ 32 ∷ name names.now number) }
{
    push_word(text, name_of(names, number))
}

/// Adds the name of a fault's program, or a dash.
fn push_program(text: &mut Vec<u8>, names: &Names, program: Option<u32>) -> Result<(), Memory>
    ensures { OnOk result (text.new.items ≡ text.old.items ++ 32 ∷ program_or_dash names.now program) }
{
    match program {
        Some(number) => push_name(text, names.programs.as_slice(), number),
        None => push_word(text, b"-"),
    }
}

/// Adds the type and the code of a fault.
fn push_fault_number(text: &mut Vec<u8>, fault: Fault) -> Result<(), Memory>
    ensures { OnOk result (text.new.items ≡ text.old.items ++ 32 ∷ fault_number fault) }
{
    push_count(text, u64::from(fault.kind))?;
    text.push(b'/')?;
    push_number(text, u64::from(fault.code))
}

/// Adds the line of a fault.
fn push_fault(
    text: &mut Vec<u8>,
    names: &Names,
    tick: u32,
    step: u32,
    fault: Fault,
) -> Result<(), Memory>
    ensures { OnOk result (text.new.items ≡ text.old.items ++ decimal tick ++ 32 ∷ decimal step ++ after_spaces (line_words names.now (FaultLine fault)) ++ 10 ∷ []) }
{
    let mut head = *b"000000000000000000000 fault";
    push_pair(text, tick, step, &mut head)?;
    push_word(text, severity(fault.severity))?;
    push_fault_number(text, fault)?;
    push_name(text, names.tasks.as_slice(), fault.task)?;
    push_program(text, names, fault.program)?;
    text.push(b'\n')?;
    Ok(())
}

/// Adds the line of a reply.
fn push_reply(
    text: &mut Vec<u8>,
    tick: u32,
    step: u32,
    lane: u32,
    reply: Reply,
) -> Result<(), Memory>
    ensures { OnOk result (text.new.items ≡ text.old.items ++ decimal tick ++ 32 ∷ decimal step ++ after_spaces (codes "reply" ∷ decimal lane ∷ answer reply) ++ 10 ∷ []) }
{
    let mut head = *b"000000000000000000000 reply";
    push_pair(text, tick, step, &mut head)?;
    push_count(text, u64::from(lane))?;
    push_answer(text, reply)?;
    text.push(b'\n')?;
    Ok(())
}

/// Adds the line of a begin, word by word.
fn push_long_begin(
    text: &mut Vec<u8>,
    tick: u32,
    step: u32,
    task: &[u8],
    program: &[u8],
    version: u32,
) -> Result<(), Memory>
    ensures { OnOk result (text.new.items ≡ text.old.items ++ decimal tick ++ 32 ∷ decimal step ++ after_spaces (codes "begin" ∷ task.now ∷ program.now ∷ decimal version ∷ []) ++ 10 ∷ []) }
{
    let mut head = *b"000000000000000000000 begin";
    push_pair(text, tick, step, &mut head)?;
    push_word(text, task)?;
    push_word(text, program)?;
    push_count(text, u64::from(version))?;
    text.push(b'\n')?;
    Ok(())
}

/// Adds the line of a begin at once. The names have few bytes.
#[inline(always)]
fn push_short_begin(
    text: &mut Vec<u8>,
    tick: u32,
    step: u32,
    task: &[u8],
    program: &[u8],
    version: u32,
) -> Result<(), Memory>
    requires { length task.now + length program.now ≤ NAMES_ROOM }
    ensures { OnOk result (text.new.items ≡ text.old.items ++ decimal tick ++ 32 ∷ decimal step ++ after_spaces (codes "begin" ∷ task.now ∷ program.now ∷ decimal version ∷ []) ++ 10 ∷ []) }
{
    let mut bytes = [b'\n'; LINE_ROOM];
    let end = write_count(&mut bytes, LINE_ROOM - 1, version);
    let end = write_word(&mut bytes, end, program);
    let end = write_word(&mut bytes, end, task);
    push_head(text, tick, step, b"begin", &mut bytes, end)
}

/// Adds the line of a begin; at once, if the names have few bytes.
fn push_begin(
    text: &mut Vec<u8>,
    tick: u32,
    step: u32,
    task: &[u8],
    program: &[u8],
    version: u32,
) -> Result<(), Memory>
    ensures { OnOk result (text.new.items ≡ text.old.items ++ decimal tick ++ 32 ∷ decimal step ++ after_spaces (codes "begin" ∷ task.now ∷ program.now ∷ decimal version ∷ []) ++ 10 ∷ []) }
{
    if task.len() + program.len() > NAMES_ROOM {
        push_long_begin(text, tick, step, task, program, version)
    } else {
        push_short_begin(text, tick, step, task, program, version)
    }
}

/// Adds the line of a value that a watched place has got, word by word.
fn push_long_set(
    text: &mut Vec<u8>,
    tick: u32,
    step: u32,
    watch: &[u8],
    value: i32,
) -> Result<(), Memory>
    ensures { OnOk result (text.new.items ≡ text.old.items ++ decimal tick ++ 32 ∷ decimal step ++ after_spaces (codes "set" ∷ watch.now ∷ signed_decimal value ∷ []) ++ 10 ∷ []) }
{
    let mut head = *b"000000000000000000000 set";
    push_pair(text, tick, step, &mut head)?;
    push_word(text, watch)?;
    push_value(text, value)?;
    text.push(b'\n')?;
    Ok(())
}

/// Adds the line of a value that a watched place has got at once. The place's name has few bytes.
#[inline(always)]
fn push_short_set(
    text: &mut Vec<u8>,
    tick: u32,
    step: u32,
    watch: &[u8],
    value: i32,
) -> Result<(), Memory>
    requires { length watch.now ≤ NAMES_ROOM }
    ensures { OnOk result (text.new.items ≡ text.old.items ++ decimal tick ++ 32 ∷ decimal step ++ after_spaces (codes "set" ∷ watch.now ∷ signed_decimal value ∷ []) ++ 10 ∷ []) }
{
    let mut bytes = [b'\n'; LINE_ROOM];
    let end = write_value(&mut bytes, LINE_ROOM - 1, value);
    let end = write_word(&mut bytes, end, watch);
    push_head(text, tick, step, b"set", &mut bytes, end)
}

/// Adds the line of a value that a watched place has got; at once, if its name has few bytes.
fn push_set(
    text: &mut Vec<u8>,
    tick: u32,
    step: u32,
    watch: &[u8],
    value: i32,
) -> Result<(), Memory>
    ensures { OnOk result (text.new.items ≡ text.old.items ++ decimal tick ++ 32 ∷ decimal step ++ after_spaces (codes "set" ∷ watch.now ∷ signed_decimal value ∷ []) ++ 10 ∷ []) }
{
    if watch.len() > NAMES_ROOM {
        push_long_set(text, tick, step, watch, value)
    } else {
        push_short_set(text, tick, step, watch, value)
    }
}

/// Adds line number `i` of a log to a text, which may have a part of it after `Memory`. One text can serve for all lines of a report.
pub fn push_line_text(text: &mut Vec<u8>, log: &Log, i: u32, names: &Names) -> Result<(), Memory>
    requires { i < length log.now.lines }
    ensures { OnOk result (option_map (λ line. text.old.items ++ line_text names.now line) (slice_get log.now.lines i) ≡ Some text.new.items) }
{
    let Stamped { tick, step, line } = log.line(i);
    match line {
        Line::Begin {
            task,
            program,
            version,
        } => {
            let task = name_of(names.tasks.as_slice(), task);
            let program = name_of(names.programs.as_slice(), program);
            push_begin(text, tick, step, task, program, version)
        }
        Line::Fault(fault) => push_fault(text, names, tick, step, fault),
        Line::Reply { lane, reply } => push_reply(text, tick, step, lane, reply),
        Line::Set { watch, value } => {
            let watch = name_of(names.watches.as_slice(), watch);
            push_set(text, tick, step, watch, value)
        }
    }
}

/// The text of line number `i` of a log.
pub fn line_text(alloc: Global, log: &Log, i: u32, names: &Names) -> Result<Vec<u8>, Memory>
    requires { i < length log.now.lines }
    ensures { IfOk result (λ text. option_map (line_text names.now) (slice_get log.now.lines i) ≡ Some text.items) }
{
    let mut text = Vec::with_capacity(alloc, LINE_ROOM)?;
    push_line_text(&mut text, log, i, names)?;
    Ok(text)
}

/// The end line of a report, which says how many lines the log lost.
pub fn end_text(
    alloc: Global,
    tick: u32,
    step: u32,
    mode: Mode,
    log: &Log,
) -> Result<Vec<u8>, Memory>
    ensures { IfOk result (λ text. text.items ≡ end_text tick step mode log.now.lost) }
{
    let mut text = Vec::with_capacity(alloc, LINE_ROOM)?;
    text.extend_from_slice(b"end")?;
    push_count(&mut text, u64::from(tick))?;
    push_count(&mut text, u64::from(step))?;
    push_word(&mut text, mode_text(mode))?;
    push_word(&mut text, b"lost")?;
    push_count(&mut text, log.lost())?;
    text.push(b'\n')?;
    Ok(text)
}
