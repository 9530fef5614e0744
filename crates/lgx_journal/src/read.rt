// Reads a journal.
ghost use Rattle.std.specs.Prelude.{◌≡◌, ℕ, List, ◌+◌, ◌≤◌, ◌∷◌, [], false, length, nat_le, Ok, Err, IfOk, OnOk, IfErr, OnErr, IfSome, IsTrue};
ghost use Rattle.spec_base.specs.declared.limits.TheConstants.{OWN_LANE};
ghost use Rattle.spec_text.specs.TextLines.{words, after_word};
ghost use Rattle.spec_text.specs.ActionText.{action_of};
ghost use Rattle.spec_text.specs.JournalText.{counted_run, action_run, lane_of, lane_run, run_of, is_lane, is_allowed, with_run, no_events, read_line, journal_of};
ghost use Rattle.lgx_journal.specs.Journals.{is_run};
ghost use Rattle.spec_base.specs.Pieces.{has_byte};
ghost use Rattle.lgx_journal.specs.Lines.{is_plain};
ghost use Rattle.lgx_journal.specs.Counts.{counted_event};
ghost use Rattle.lgx_journal.specs.Reading.{IfLine, IfCode, is_single, tally_events, read_after};
ghost use Rattle.lgx_journal.specs.Written.{event_run};

use crate::actions::action_of;
use crate::counts::{Counted, short_line, single_line};
use crate::error::{JournalError, LineError, at_line};
use crate::journal::Journal;
use crate::lines::{is_last, is_skipped, next_line, split_lane};
use crate::words::{next_word, unsigned_of};
use lgx_num::Memory;
use spec_base::limits::{MAX_ACTIONS, MAX_JOURNAL_STEPS, MAX_LINE_BYTES, OWN_LANE};
use spec_machine::Event;
use spec_text::{EventRun, JournalCode, JournalFault};
use std::alloc::Global;
use std::marker::Model;

/// Reads a journal line by line, and keeps how many processor steps, ticks and actions its lines have so far; they are within the
/// limits of a journal.
#[derive(Drop)]
pub struct JournalReader {
    steps: u32,
    ticks: u32,
    actions: u32,
}

impl Model for JournalReader {
    ghost use Rattle.std.specs.Prelude.{IsTrue};
    ghost use Rattle.spec_text.specs.JournalText.{Tally, is_allowed};
    ghost use Rattle.lgx_journal.specs.Reading.{counts};

    ghost Value = { Tally };

    ghost view = { λ t. counts t.steps t.ticks t.actions };

    ghost invariant = { λ t. IsTrue (is_allowed (counts t.steps t.ticks t.actions)) };
}

/// Adds to a total, unless it would pass the most that it may be.
#[inline(always)]
fn add_within(total: &mut u32, more: u32, most: u32) -> bool
    requires { total.old ≤ most }
    ensures within { result ≡ nat_le (total.old + more) most }
    ensures added { IsTrue result → total.new ≡ total.old + more }
    ensures same { result ≡ false → total.new ≡ total.old }
{
    if more > most - *total {
        return false;
    }
    *total += more;
    true
}

impl JournalReader {
    /// A reader before the first line: no event.
    pub fn new() -> JournalReader
        ensures { result ≡ no_events }
    {
        JournalReader {
            steps: 0,
            ticks: 0,
            actions: 0,
        }
    }

    /// Counts `count` steps or ticks, unless a limit would be passed.
    #[inline(always)]
    fn take_count(&mut self, counted: Counted, count: u32) -> bool
        ensures allowed { result ≡ is_allowed (with_run self.old (event_run (counted_event counted) count)) }
        ensures counted { IsTrue result → self.new ≡ with_run self.old (event_run (counted_event counted) count) }
        ensures same { result ≡ false → self.new ≡ self.old }
    {
        match counted {
            Counted::Steps => add_within(&mut self.steps, count, MAX_JOURNAL_STEPS),
            Counted::Ticks => add_within(&mut self.ticks, count, MAX_JOURNAL_STEPS),
        }
    }

    /// Counts a run, unless a limit would be passed.
    fn take(&mut self, run: &EventRun) -> bool
        ensures allowed { result ≡ is_allowed (with_run self.old run.now) }
        ensures counted { IsTrue result → self.new ≡ with_run self.old run.now }
        ensures same { result ≡ false → self.new ≡ self.old }
    {
        match run.event {
            Event::Cpu => add_within(&mut self.steps, run.count, MAX_JOURNAL_STEPS),
            Event::Tick => add_within(&mut self.ticks, run.count, MAX_JOURNAL_STEPS),
            Event::Act(_, _) => add_within(&mut self.actions, run.count, MAX_ACTIONS as u32),
        }
    }
}

/// A count of processor steps or of ticks, by its two words.
#[tactic(auto, using(crate::proofs::Verbs::run_steps, crate::proofs::Verbs::run_ticks))]
fn counted_of(verb: &[u8], count: &[u8]) -> Option<EventRun>
    ensures run { result ≡ counted_run (verb.now ∷ count.now ∷ []) }
    ensures form { IfSome result (λ r. IsTrue (is_single r)) }
{
    if verb == b"cpu".as_slice() {
        let Some(count) = unsigned_of(count) else {
            return None;
        };
        return Some(EventRun {
            event: Event::Cpu,
            count,
        });
    }
    if verb == b"tick".as_slice() {
        let Some(count) = unsigned_of(count) else {
            return None;
        };
        return Some(EventRun {
            event: Event::Tick,
            count,
        });
    }
    None
}

/// A count of processor steps or of ticks.
fn counted_run(line: &[u8]) -> Option<EventRun>
    ensures run { result ≡ counted_run (words line.now) }
    ensures form { IfSome result (λ r. IsTrue (is_single r)) }
{
    let Some((verb, after)) = next_word(line) else {
        return None;
    };
    let Some((count, after)) = next_word(after) else {
        return None;
    };
    match next_word(after) {
        None => counted_of(verb, count),
        Some(_) => None,
    }
}

/// An action of a lane.
fn action_run(alloc: Global, lane: u32, text: &[u8]) -> Result<Option<EventRun>, Memory>
    requires { IsTrue (is_plain text.now) }
    ensures run { IfOk result (λ o. o ≡ action_run lane (action_of text.now)) }
    ensures form { IfOk result (λ o. IfSome o (λ r. IsTrue (is_single r))) }
{
    let Some(action) = action_of(alloc, text)? else {
        return Ok(None);
    };
    Ok(Some(EventRun {
        event: Event::Act(lane, action),
        count: 1,
    }))
}

/// An action of the lane that a line names, if it names one. `text` is what comes after the line's first word.
fn lane_run(alloc: Global, lane: Option<u32>, text: &[u8]) -> Result<Option<EventRun>, Memory>
    requires { IsTrue (is_plain text.now) }
    ensures run { (line : List ℕ) → text.now ≡ after_word line → IfOk result (λ o. o ≡ lane_run line lane) }
    ensures form { IfOk result (λ o. IfSome o (λ r. IsTrue (is_single r))) }
{
    match lane {
        None => Ok(None),
        Some(lane) => action_run(alloc, lane, text),
    }
}

/// A count of processor steps or of ticks, in a line that names this lane or none. One that names a lane counts neither, so it
/// isn't looked at.
#[tactic(auto, using(crate::proofs::Verbs::lane_counts_none))]
fn count_without_lane(line: &[u8], lane: Option<u32>) -> Option<EventRun>
    requires { lane ≡ lane_of line.now }
    ensures run { result ≡ counted_run (words line.now) }
    ensures form { IfSome result (λ r. IsTrue (is_single r)) }
{
    match lane {
        None => counted_run(line),
        Some(_) => None,
    }
}

/// What a line of a journal says, which names this lane or none and goes on so after its first word.
fn run_of(
    alloc: Global,
    line: &[u8],
    lane: Option<u32>,
    after: &[u8],
) -> Result<Option<EventRun>, Memory>
    requires plain { IsTrue (is_plain line.now) }
    requires plain_after { IsTrue (is_plain after.now) }
    requires lane { lane ≡ lane_of line.now }
    requires after { after.now ≡ after_word line.now }
    ensures run { IfOk result (λ o. o ≡ run_of line.now) }
    ensures form { IfOk result (λ o. IfSome o (λ r. IsTrue (is_single r))) }
{
    if let Some(run) = count_without_lane(line, lane) {
        return Ok(Some(run));
    }
    match lane_run(alloc, lane, after)? {
        Some(run) => Ok(Some(run)),
        None => action_run(alloc, OWN_LANE, line),
    }
}

/// Whether a lane that a line names, if it names one, is below the journal's own.
fn is_lane(lane: Option<u32>) -> bool
    ensures { result ≡ is_lane lane }
{
    match lane {
        None => true,
        Some(lane) => lane < OWN_LANE,
    }
}

impl JournalReader {
    /// What a line says after the lines so far, which then counts with them, or its first cause: J1 for a line of more than
    /// 65,536 bytes or without one of the forms, J2 for a lane that is none of a journal's, J4 for a count of 0 or one with which
    /// a limit would be passed. A line with a cause doesn't count.
    #[tactic(auto, using(crate::proofs::Parts::line_is_plain, crate::proofs::Parts::plain_after_word))]
    pub fn read_line(&mut self, alloc: Global, line: &[u8]) -> Result<EventRun, LineError>
        requires { has_byte 10 line.now ≡ false }
        ensures run { IfOk result (λ run. read_line self.old line.now ≡ Ok run) }
        ensures counted { IfOk result (λ run. self.new ≡ with_run self.old run) }
        ensures allowed { IfOk result (λ run. IsTrue (is_allowed (with_run self.old run))) }
        ensures form { IfOk result (λ run. IsTrue (is_run run)) }
        ensures code { IfErr result (λ e. IfCode e (λ code. read_line self.old line.now ≡ Err code)) }
        ensures same { OnErr result (self.new ≡ self.old) }
    {
        if line.len() > MAX_LINE_BYTES {
            return Err(LineError::Code(JournalCode::J1));
        }
        let (lane, after) = split_lane(line);
        let Some(run) = run_of(alloc, line, lane, after)? else {
            return Err(LineError::Code(JournalCode::J1));
        };
        if !is_lane(lane) {
            return Err(LineError::Code(JournalCode::J2));
        }
        if run.count == 0 {
            return Err(LineError::Code(JournalCode::J4));
        }
        if !self.take(&run) {
            return Err(LineError::Code(JournalCode::J4));
        }
        Ok(run)
    }
}

/// Puts the lines with which a text begins into a journal, as long as each is a line of one step or of one tick, no limit is
/// passed and the journal has room. Answers how many lines they are, and the text after them.
fn read_singles<'a>(
    journal: &mut Journal,
    tally: &mut JournalReader,
    text: &'a [u8],
) -> (u64, &'a [u8])
    requires { length journal.old.events ≡ tally_events tally.old }
    ensures same { (n : ℕ) → read_after journal.new.events (n + result.0) tally.new result.1.now ≡ read_after journal.old.events n tally.old text.now }
    ensures size { length journal.new.events ≡ tally_events tally.new }
    ensures number { result.0 + length result.1.now ≤ length text.now }
{
    let mut number = 0u64;
    let mut rest = text;
    'singles: while journal.has_room() {
        let Some((counted, after)) = single_line(rest) else {
            return (number, rest);
        };
        if !tally.take_count(counted, 1) {
            return (number, rest);
        }
        journal.add_counted(counted, 1);
        number += 1;
        rest = after;
    }
    (number, rest)
}

/// Puts the lines with which a text begins into a journal, as long as each is a short line of steps or of ticks, no limit is
/// passed and the journal has room; lines of one step or of one tick take least. Answers how many lines they are, and the text
/// after them.
fn read_counts<'a>(
    journal: &mut Journal,
    tally: &mut JournalReader,
    text: &'a [u8],
) -> (u64, &'a [u8])
    requires { length journal.old.events ≡ tally_events tally.old }
    ensures same { (n : ℕ) → read_after journal.new.events (n + result.0) tally.new result.1.now ≡ read_after journal.old.events n tally.old text.now }
    ensures size { length journal.new.events ≡ tally_events tally.new }
    ensures number { result.0 + length result.1.now ≤ length text.now }
{
    let (mut number, mut rest) = read_singles(journal, tally, text);
    'counts: while journal.has_room() {
        let Some((counted, count, after)) = short_line(rest) else {
            return (number, rest);
        };
        if !tally.take_count(counted, count) {
            return (number, rest);
        }
        journal.add_counted(counted, count);
        number += 1;
        rest = after;
    }
    (number, rest)
}

/// Puts the events of a text into a journal without one, or gives the first line that has a cause, and the line's first cause.
fn read_lines(alloc: Global, journal: &mut Journal, bytes: &[u8]) -> Result<(), JournalError>
    requires { journal.old.events ≡ [] }
    ensures journal { OnOk result (journal_of bytes.now ≡ Ok journal.new.events) }
    ensures fault { IfErr result (λ e. IfLine e (λ fault. journal_of bytes.now ≡ Err fault)) }
{
    let mut tally = JournalReader::new();
    let mut number = 0u64;
    let mut rest = bytes;
    'lines: loop {
        journal.reserve(1)?;
        let (counts, others) = read_counts(journal, &mut tally, rest);
        number += counts;
        let Some((line, after)) = next_line(others) else {
            return Err(JournalError::Line(JournalFault {
                code: JournalCode::J1,
                line: number + 1,
            }));
        };
        number += 1;
        rest = after;
        if is_skipped(line) {
            continue;
        }
        if is_last(line) {
            return Ok(());
        }
        journal.reserve(1)?;
        match tally.read_line(alloc, line) {
            Ok(run) => journal.add_run(run),
            Err(error) => return Err(at_line(error, number)),
        }
    }
}

/// The journal that a text is, or its first line with a cause and the line's first cause.
pub fn read_journal(alloc: Global, bytes: &[u8]) -> Result<Journal, JournalError>
    ensures journal { IfOk result (λ journal. journal_of bytes.now ≡ Ok journal.events) }
    ensures fault { IfErr result (λ e. IfLine e (λ fault. journal_of bytes.now ≡ Err fault)) }
{
    let mut journal = Journal::new(alloc);
    read_lines(alloc, &mut journal, bytes)?;
    Ok(journal)
}
