// Texts of journals and scripts.
//
// In a text that is given `{{N*TEXT}}` stands for N times the text, and `\n`, `\s`, `\p` and such for bytes that a
// row can't hold. A refused text is answered with its cause and line.
use crate::trouble::Trouble;
use lgx_journal::{
    Event, Journal, JournalError, Timed, read_journal, read_script, write_event, write_journal,
};
use lgx_num::Items;
use std::alloc::Global;
use test_rows::{Told, expanded, unescaped};

/// `journal | TEXT | ..`: the canonical text of the journal.
pub fn say_journal(alloc: Global, said: &mut Told, given: &str) -> Result<(), Trouble> {
    let text = text_of(alloc, given)?;
    match read_journal(alloc, &text) {
        Ok(journal) => say_canonical(alloc, said, &journal),
        Err(error) => say_refusal(said, error),
    }
}

fn say_canonical(alloc: Global, said: &mut Told, journal: &Journal) -> Result<(), Trouble> {
    let text = write_journal(alloc, journal)?;
    said.bytes(&written(alloc, &text)?);
    Ok(())
}

/// A text as rows have it, with `\n` for a line feed and `\r` for a carriage return.
fn written(alloc: Global, text: &[u8]) -> Result<Vec<u8>, Trouble> {
    let mut written = Vec::new(alloc);
    for byte in text {
        match *byte {
            b'\n' => written.extend_from_slice(b"\\n")?,
            b'\r' => written.extend_from_slice(b"\\r")?,
            byte => written.push(byte)?,
        }
    }
    Ok(written)
}

/// `runs | TEXT | ..`: how many runs of equal events the journal has.
pub fn say_runs(alloc: Global, said: &mut Told, given: &str) -> Result<(), Trouble> {
    let text = text_of(alloc, given)?;
    say_count(alloc, said, &text)
}

/// `again | TEXT | ..`: how many it has once it was written and read again.
pub fn say_again(alloc: Global, said: &mut Told, given: &str) -> Result<(), Trouble> {
    let text = text_of(alloc, given)?;
    match read_journal(alloc, &text) {
        Ok(journal) => say_written(alloc, said, &journal),
        Err(error) => say_refusal(said, error),
    }
}

fn say_written(alloc: Global, said: &mut Told, journal: &Journal) -> Result<(), Trouble> {
    let text = write_journal(alloc, journal)?;
    say_count(alloc, said, &text)
}

fn say_count(alloc: Global, said: &mut Told, text: &[u8]) -> Result<(), Trouble> {
    match read_journal(alloc, text) {
        Ok(journal) => said.shown(&journal.runs()),
        Err(error) => return say_refusal(said, error),
    }
    Ok(())
}

/// `lanes | TEXT | ..`: how many lanes the script has.
pub fn say_lanes(alloc: Global, said: &mut Told, given: &str) -> Result<(), Trouble> {
    let text = text_of(alloc, given)?;
    match read_script(alloc, &text) {
        Ok(script) => said.count(script.lanes.len()),
        Err(error) => return say_refusal(said, error),
    }
    Ok(())
}

/// `script | TEXT | ..`: the script's steps, pace and number of lanes, and then its actions lane by lane, each after
/// `/` and its tick.
pub fn say_script(alloc: Global, said: &mut Told, given: &str) -> Result<(), Trouble> {
    let text = text_of(alloc, given)?;
    match read_script(alloc, &text) {
        Ok(script) => {
            said.shown(&script.steps);
            said.shown(&script.pace);
            said.count(script.lanes.len());
            say_all(alloc, said, script.lanes)
        }
        Err(error) => say_refusal(said, error),
    }
}

fn say_all(alloc: Global, said: &mut Told, lanes: Items<Items<Timed>>) -> Result<(), Trouble> {
    let mut lane = 0u32;
    for actions in lanes.into_vec() {
        say_lane(alloc, said, lane, actions)?;
        lane = lane.saturating_add(1);
    }
    Ok(())
}

/// Says the actions of a lane.
fn say_lane(
    alloc: Global,
    said: &mut Told,
    lane: u32,
    actions: Items<Timed>,
) -> Result<(), Trouble> {
    for timed in actions.into_vec() {
        let Timed { at, action } = timed;
        say_action(alloc, said, at, &Event::Act(lane, action))?;
    }
    Ok(())
}

fn say_action(alloc: Global, said: &mut Told, at: u32, event: &Event) -> Result<(), Trouble> {
    let line = write_event(alloc, event, 1)?;
    said.word("/");
    said.shown(&at);
    said.bytes(line.trim_ascii_end());
    Ok(())
}

fn say_refusal(said: &mut Told, error: JournalError) -> Result<(), Trouble> {
    match error {
        JournalError::Line(fault) => {
            said.shown(&fault.code);
            said.shown(&fault.line);
            Ok(())
        }
        JournalError::Memory => Err(Trouble::Memory),
    }
}

/// The bytes that a text stands for.
fn text_of(alloc: Global, given: &str) -> Result<Vec<u8>, Trouble> {
    let text = expanded(alloc, given)?;
    Ok(unescaped(alloc, text.as_str())?)
}
