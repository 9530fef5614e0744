// Reads a trace.
ghost use Rattle.std.specs.Prelude.{◌≡◌, ◌∷◌, [], ◌++◌, ◌&&◌, Ok, Err, IfOk, OnOk, IfErr};
ghost use Rattle.spec_base.specs.Pieces.{pieces};
ghost use Rattle.lgx_audit.specs.TraceTable.{is_tasks, is_programs, is_mask, if_named, triggered, is_in_table, AreInTable};
ghost use Rattle.lgx_audit.specs.TraceText.{is_edit, is_answer, has_form};
ghost use Rattle.lgx_audit.specs.TraceReading.{began_of, step_of, left_of, tick_of, act_of, event_of, words_of, read_line, is_end, trace_of};
ghost use Rattle.lgx_audit.specs.Answers.{IfLine};

use crate::error::{TraceCode, TraceError, TraceFault};
use crate::words::{answer_of, ended_of, fault_of, mark_of, named_of, number_of, verb_of};
use lgx_num::{Items, Memory, split_first};
use spec_base::limits::OWN_LANE;
use spec_schedule::{Table, TraceAnswer, TraceEvent, TraceMark, Verb};
use std::alloc::Global;

/// `began T G V`, after its first word.
fn began_of(task: &[u8], program: &[u8], version: &[u8]) -> Option<TraceEvent>
    ensures { result ≡ began_of task.now program.now version.now }
{
    let task = number_of(task)?;
    let program = number_of(program)?;
    let version = number_of(version)?;
    Some(TraceEvent::Began {
        task,
        program,
        version,
    })
}

/// `step T G MARK FAULT`, after its first word.
fn step_of(task: &[u8], program: &[u8], mark: &[u8], fault: &[u8]) -> Option<TraceEvent>
    ensures { result ≡ step_of task.now program.now mark.now fault.now }
{
    let task = number_of(task)?;
    let program = number_of(program)?;
    let mark = mark_of(mark)?;
    let fault = fault_of(fault)?;
    Some(TraceEvent::Step {
        task,
        program,
        mark,
        fault,
    })
}

/// `left T G ended` or `left T G on`, after its first word.
fn left_of(task: &[u8], program: &[u8], word: &[u8]) -> Option<TraceEvent>
    ensures { result ≡ left_of task.now program.now word.now }
{
    let task = number_of(task)?;
    let program = number_of(program)?;
    let ended = ended_of(word)?;
    Some(TraceEvent::Left {
        task,
        program,
        ended,
    })
}

/// `tick R O W`, after its first word.
fn tick_of(released: &[u8], overlapped: &[u8], word: &[u8]) -> Option<TraceEvent>
    ensures { result ≡ tick_of released.now overlapped.now word.now }
{
    let released = number_of(released)?;
    let overlapped = number_of(overlapped)?;
    let watchdog = named_of(word)?;
    Some(TraceEvent::Tick {
        released,
        overlapped,
        watchdog,
    })
}

/// `act LANE VERB G ANSWER R`, after its first word.
fn act_of(
    lane: &[u8],
    verb: &[u8],
    program: &[u8],
    answer: &[u8],
    released: &[u8],
) -> Option<TraceEvent>
    ensures { result ≡ act_of lane.now verb.now program.now answer.now released.now }
{
    let lane = number_of(lane)?;
    let verb = verb_of(verb)?;
    let program = named_of(program)?;
    let answer = answer_of(answer)?;
    let released = number_of(released)?;
    Some(TraceEvent::Act {
        lane,
        verb,
        program,
        answer,
        released,
    })
}

/// The line `idle`.
fn of_one(word: &[u8]) -> Option<TraceEvent>
    ensures { result ≡ event_of (word.now ∷ []) }
{
    if word == b"idle".as_slice() {
        return Some(TraceEvent::Idle);
    }
    None
}

/// The event of a line of four words.
fn of_four(word: &[u8], first: &[u8], second: &[u8], third: &[u8]) -> Option<TraceEvent>
    ensures { result ≡ event_of (word.now ∷ first.now ∷ second.now ∷ third.now ∷ []) }
{
    if word == b"began".as_slice() {
        return began_of(first, second, third);
    }
    if word == b"left".as_slice() {
        return left_of(first, second, third);
    }
    if word == b"tick".as_slice() {
        return tick_of(first, second, third);
    }
    None
}

/// The event of a line of five words.
fn of_five(
    word: &[u8],
    first: &[u8],
    second: &[u8],
    third: &[u8],
    fourth: &[u8],
) -> Option<TraceEvent>
    ensures { result ≡ event_of (word.now ∷ first.now ∷ second.now ∷ third.now ∷ fourth.now ∷ []) }
{
    if word == b"step".as_slice() {
        return step_of(first, second, third, fourth);
    }
    None
}

/// The event of a line of six words.
fn of_six(
    word: &[u8],
    first: &[u8],
    second: &[u8],
    third: &[u8],
    fourth: &[u8],
    fifth: &[u8],
) -> Option<TraceEvent>
    ensures { result ≡ event_of (word.now ∷ first.now ∷ second.now ∷ third.now ∷ fourth.now ∷ fifth.now ∷ []) }
{
    if word == b"act".as_slice() {
        return act_of(first, second, third, fourth, fifth);
    }
    None
}

/// The event of a line.
#[tactic(auto, using(crate::proofs::ReadLines::seven_words, crate::proofs::ReadLines::two_words))]
fn event_of(line: &[u8]) -> Option<TraceEvent>
    ensures { result ≡ event_of (words_of line.now) }
{
    let Some((word, rest)) = split_first(line, b' ') else {
        return of_one(line);
    };
    let (first, rest) = split_first(rest, b' ')?;
    let (second, rest) = split_first(rest, b' ')?;
    let Some((third, rest)) = split_first(rest, b' ') else {
        return of_four(word, first, second, rest);
    };
    let Some((fourth, rest)) = split_first(rest, b' ') else {
        return of_five(word, first, second, third, rest);
    };
    match split_first(rest, b' ') {
        None => of_six(word, first, second, third, fourth, rest),
        Some(_) => None,
    }
}

/// Whether an action is an edit.
fn is_edit(verb: Verb) -> bool
    ensures { result ≡ is_edit verb }
{
    match verb {
        Verb::Accept | Verb::Test | Verb::Untest | Verb::Assemble | Verb::Cancel => true,
        _ => false,
    }
}

/// Whether an action may have this answer.
fn is_answer(verb: Verb, answer: TraceAnswer) -> bool
    ensures { result ≡ is_answer verb answer }
{
    match (verb, answer) {
        (Verb::Accept, TraceAnswer::Done) => false,
        (Verb::Accept, _) => true,
        (_, TraceAnswer::Number(_)) => false,
        _ => true,
    }
}

/// Whether an event has a line.
fn has_form(event: &TraceEvent) -> bool
    ensures { result ≡ has_form event.now }
{
    match event {
        TraceEvent::Act {
            verb,
            program,
            answer,
            ..
        } => (is_edit(*verb) || program.is_none()) && is_answer(*verb, *answer),
        _ => true,
    }
}

/// Whether it is the number of a task.
fn is_tasks(table: &Table, task: u32) -> bool
    ensures { result ≡ is_tasks table.now task }
{
    (task as usize) < table.tasks.len()
}

/// Whether it is the number of a program.
fn is_programs(table: &Table, program: u32) -> bool
    ensures { result ≡ is_programs table.now program }
{
    program < table.programs
}

/// Whether it is the number of a task, or none.
fn if_task(table: &Table, task: Option<u32>) -> bool
    ensures { result ≡ if_named (is_tasks table.now) task }
{
    match task {
        Some(task) => is_tasks(table, task),
        None => true,
    }
}

/// Whether it is the number of a program, or none.
fn if_program(table: &Table, program: Option<u32>) -> bool
    ensures { result ≡ if_named (is_programs table.now) program }
{
    match program {
        Some(program) => is_programs(table, program),
        None => true,
    }
}

/// Whether each bit of a mask is a task's.
#[tactic(auto, using(crate::proofs::Masks::all_fit, crate::proofs::Masks::shifted_out))]
fn is_mask(table: &Table, mask: u32) -> bool
    ensures { result ≡ is_mask table.now mask }
{
    let tasks = table.tasks.len();
    tasks >= 32 || mask >> tasks == 0
}

/// The task that a mark triggers.
fn triggered(mark: TraceMark) -> Option<u32>
    ensures { result ≡ triggered mark }
{
    match mark {
        TraceMark::Trigger(task) => Some(task),
        _ => None,
    }
}

/// Whether a step is of a task and a program of the table.
fn is_of(table: &Table, task: u32, program: u32) -> bool
    ensures { result ≡ (is_tasks table.now task && is_programs table.now program) }
{
    is_tasks(table, task) && is_programs(table, program)
}

/// Whether tasks, programs and the bits of masks are the table's, and the lane is at most 31.
fn is_in_table(table: &Table, event: TraceEvent) -> bool
    ensures { result ≡ is_in_table table.now event }
{
    match event {
        TraceEvent::Idle => true,
        TraceEvent::Began { task, program, .. } => is_of(table, task, program),
        TraceEvent::Step {
            task,
            program,
            mark,
            ..
        } => is_tasks(table, task)
            && is_programs(table, program)
            && if_task(table, triggered(mark)),
        TraceEvent::Left { task, program, .. } => is_of(table, task, program),
        TraceEvent::Tick {
            released,
            overlapped,
            watchdog,
        } => is_mask(table, released) && is_mask(table, overlapped) && if_task(table, watchdog),
        TraceEvent::Act {
            lane,
            program,
            released,
            ..
        } => lane <= OWN_LANE && if_program(table, program) && is_mask(table, released),
    }
}

/// The event of a line, or its first cause.
fn read_line(table: &Table, line: &[u8]) -> Result<TraceEvent, TraceCode>
    ensures { result ≡ read_line table.now line.now }
{
    let Some(event) = event_of(line) else {
        return Err(TraceCode::K1);
    };
    if !has_form(&event) {
        return Err(TraceCode::K1);
    }
    if !is_in_table(table, event) {
        return Err(TraceCode::K2);
    }
    Ok(event)
}

/// Whether a line is the word `end`.
fn is_end(line: &[u8]) -> bool
    ensures { result ≡ is_end line.now }
{
    line == b"end".as_slice()
}

/// Puts an event at the end of a trace.
fn add(trace: &mut Vec<TraceEvent>, event: TraceEvent) -> Result<(), Memory>
    ensures { OnOk result (trace.new.items ≡ trace.old.items ++ event ∷ []) }
{
    trace.push(event)?;
    Ok(())
}

/// Reads the lines of a text up to the line `end`.
fn read_lines(alloc: Global, bytes: &[u8], table: &Table) -> Result<Vec<TraceEvent>, TraceError>
    ensures trace { IfOk result (λ trace. trace_of table.now bytes.now ≡ Ok trace.items) }
    ensures fault { IfErr result (λ e. IfLine e (λ fault. trace_of table.now bytes.now ≡ Err fault)) }
    ensures known { IfOk result (λ trace. AreInTable table.now trace.items) }
{
    let mut trace = Vec::new(alloc);
    let mut number = 0u64;
    let mut rest = bytes;
    while let Some((line, after)) = split_first(rest, b'\n') {
        number += 1;
        rest = after;
        if is_end(line) {
            return Ok(trace);
        }
        match read_line(table, line) {
            Ok(event) => add(&mut trace, event)?,
            Err(code) => return Err(TraceError::Line(TraceFault { code, line: number })),
        }
    }
    Err(TraceError::Line(TraceFault {
        code: TraceCode::K1,
        line: number + 1,
    }))
}

/// The trace that a text is, or its first line with a cause and the line's first cause. The line `end` ends the trace, and what
/// follows it isn't read. Words are separated by exactly one space; numbers have no needless zeros.
pub fn read_trace(
    alloc: Global,
    bytes: &[u8],
    table: &Table,
) -> Result<Items<TraceEvent>, TraceError>
    ensures trace { IfOk result (λ trace. trace_of table.now bytes.now ≡ Ok trace) }
    ensures fault { IfErr result (λ e. IfLine e (λ fault. trace_of table.now bytes.now ≡ Err fault)) }
    ensures known { IfOk result (λ trace. AreInTable table.now trace) }
{
    let trace = read_lines(alloc, bytes, table)?;
    Ok(Items::of(trace))
}
