// What each line of a session comes to.
ghost use Rattle.std.specs.Prelude.{◌≡◌, ◌+◌, ◌++◌, ◌<◌, ◌≤◌, ◌^◌, [], false, List, length, replicate, flat_map, IfOk, IfErr, OnOk, Ok, Err};
ghost use Rattle.spec_base.specs.Pieces.{has_byte};
ghost use Rattle.spec_base.specs.declared.limits.TheConstants.{MAX_EVENTS};
ghost use Rattle.spec_machine.specs.declared.event.Event.{Event as Events};
ghost use Rattle.spec_machine.specs.Project.{Project};
ghost use Rattle.spec_text.specs.ReportText.{line_text};
ghost use Rattle.lgx_journal.specs.Reading.{IfCode};
ghost use Rattle.lgx_record.specs.IsRunOf.{IsRunOf};
ghost use Rattle.lgx_live.specs.Session.{Point, run_asked, after};
ghost use Rattle.lgx_live.specs.Output.{text_with, answer_text, last_line, refusal_line};
ghost use Rattle.lgx_live.specs.Console.{Says};
ghost use Rattle.lgx_live.specs.Talks.{IsAt};

use crate::console::Console;
use crate::followed::Followed;
use crate::refusal::refusal_line;
use lgx_io::SinkFault;
use lgx_journal::{JournalReader, LineError, is_skipped};
use lgx_watch::{Log, Names, push_line_text};
use spec_base::limits::MAX_EVENTS;
use spec_text::{EventRun, JournalCode, JournalFault};
use std::alloc::Global;

/// What a session keeps from line to line.
#[derive(Drop)]
pub(crate) struct Pad {
    /// The lines of the last event.
    pub log: Log,
    /// Room for the text of a line.
    pub text: Vec<u8>,
    /// How many events were done.
    pub events: u32,
    /// How many lines came.
    pub lines: u64,
}

/// Puts the lines of a log, one after another.
fn put_log<C: Console>(
    console: &mut C,
    log: &Log,
    names: &Names,
    text: &mut Vec<u8>,
) -> Result<(), SinkFault>
    ensures { Says (C.seen console.old) (C.seen console.new) (flat_map (line_text names.now) log.now.lines) result }
{
    for i in 0..log.lines() {
        text.clear();
        match push_line_text(text, log, i, names) {
            Ok(()) => {}
            Err(_) => return Err(SinkFault::Memory),
        }
        match console.put(text) {
            Ok(()) => {}
            Err(fault) => return Err(fault),
        }
    }
    Ok(())
}

/// Takes the event of a run as often as the run says, and puts the report's lines of each.
fn take_run<C: Console>(
    console: &mut C,
    follow: &mut Followed,
    log: &mut Log,
    text: &mut Vec<u8>,
    run: &EventRun,
) -> Result<(), SinkFault>
    requires { (project : Project) × (events : List Events) × IsRunOf follow.old.run project events × (length events + run.now.count ≤ MAX_EVENTS) }
    ensures says { (project : Project) (events : List Events) → IsRunOf follow.old.run project events → Says (C.seen console.old) (C.seen console.new) (text_with project events (replicate run.now.count run.now.event)) result }
    ensures follows { (project : Project) (events : List Events) → IsRunOf follow.old.run project events → OnOk result (IsRunOf follow.new.run project (events ++ replicate run.now.count run.now.event)) }
{
    for _ in 0..run.count {
        match follow.take(&run.event, log) {
            Ok(()) => {}
            Err(_) => return Err(SinkFault::Memory),
        }
        match put_log(console, log, follow.names(), text) {
            Ok(()) => {}
            Err(fault) => return Err(fault),
        }
    }
    Ok(())
}

/// The run that a line asks for, after `events` events, or the first cause why it is refused.
fn run_asked(alloc: Global, events: u32, line: &[u8]) -> Result<EventRun, LineError>
    requires { has_byte 10 line.now ≡ false }
    ensures run { (before : List Events) → events ≡ length before → IfOk result (λ run. run_asked before line.now ≡ Ok run) }
    ensures code { (before : List Events) → events ≡ length before → IfErr result (λ e. IfCode e (λ code. run_asked before line.now ≡ Err code)) }
    ensures room { IfOk result (λ run. events + run.count ≤ MAX_EVENTS) }
{
    let run = JournalReader::new().read_line(alloc, line)?;
    if u64::from(events) + u64::from(run.count) > u64::from(MAX_EVENTS) {
        return Err(LineError::Code(JournalCode::J4));
    }
    Ok(run)
}

/// Puts the line that says why a line wasn't done.
fn put_refusal<C: Console>(
    console: &mut C,
    text: &mut Vec<u8>,
    fault: JournalFault,
) -> Result<(), SinkFault>
    ensures { Says (C.seen console.old) (C.seen console.new) (refusal_line fault) result }
{
    if refusal_line(text, fault).is_err() {
        return Err(SinkFault::Memory);
    }
    console.put(text)
}

/// Does a line and puts its answer.
fn answer_line<C: Console>(
    alloc: Global,
    console: &mut C,
    follow: &mut Followed,
    pad: &mut Pad,
    line: &[u8],
) -> Result<(), SinkFault>
    requires clean { has_byte 10 line.now ≡ false }
    requires count { pad.old.lines + 1 < 2 ^ 64 }
    requires some { (project : Project) × (at : Point) × IsAt (IsRunOf follow.old.run) pad.old.events pad.old.lines project at }
    ensures says { (project : Project) (at : Point) → IsAt (IsRunOf follow.old.run) pad.old.events pad.old.lines project at → Says (C.seen console.old) (C.seen console.new) (answer_text project at line.now) result }
    ensures goes_on { (project : Project) (at : Point) → IsAt (IsRunOf follow.old.run) pad.old.events pad.old.lines project at → OnOk result (IsAt (IsRunOf follow.new.run) pad.new.events pad.new.lines project (after at line.now)) }
{
    pad.lines += 1;
    if is_skipped(line) {
        return Ok(());
    }
    match run_asked(alloc, pad.events, line) {
        Ok(run) => {
            pad.events += run.count;
            take_run(console, follow, &mut pad.log, &mut pad.text, &run)
        }
        Err(LineError::Code(code)) => {
            let line = pad.lines;
            put_refusal(console, &mut pad.text, JournalFault { code, line })
        }
        Err(LineError::Memory) => Err(SinkFault::Memory),
    }
}

/// Does a line, and puts its answer and writes it.
pub(crate) fn exchange<C: Console>(
    alloc: Global,
    console: &mut C,
    follow: &mut Followed,
    pad: &mut Pad,
    line: &[u8],
) -> Result<(), SinkFault>
    requires clean { has_byte 10 line.now ≡ false }
    requires count { pad.old.lines + 1 < 2 ^ 64 }
    requires some { (project : Project) × (at : Point) × IsAt (IsRunOf follow.old.run) pad.old.events pad.old.lines project at }
    ensures says { (project : Project) (at : Point) → IsAt (IsRunOf follow.old.run) pad.old.events pad.old.lines project at → Says (C.seen console.old) (C.seen console.new) (answer_text project at line.now) result }
    ensures goes_on { (project : Project) (at : Point) → IsAt (IsRunOf follow.old.run) pad.old.events pad.old.lines project at → OnOk result (IsAt (IsRunOf follow.new.run) pad.new.events pad.new.lines project (after at line.now)) }
    ensures written { OnOk result ((C.seen console.new).waiting ≡ []) }
{
    match answer_line(alloc, console, follow, pad, line) {
        Ok(()) => console.flush(),
        Err(fault) => Err(fault),
    }
}

/// Puts the end line of the report, and writes it.
pub(crate) fn end<C: Console>(
    console: &mut C,
    follow: &Followed,
    pad: &mut Pad,
) -> Result<(), SinkFault>
    ensures says { (project : Project) (events : List Events) → IsRunOf follow.now.run project events → Says (C.seen console.old) (C.seen console.new) (last_line project events) result }
    ensures written { OnOk result ((C.seen console.new).waiting ≡ []) }
{
    match follow.end_line(&mut pad.log, &mut pad.text) {
        Ok(()) => {}
        Err(_) => return Err(SinkFault::Memory),
    }
    match console.put(&pad.text) {
        Ok(()) => {}
        Err(fault) => return Err(fault),
    }
    console.flush()
}
