// Reads a script.
ghost use Rattle.std.specs.Prelude.{◌≡◌, ℕ, ◌+◌, ◌≤◌, ◌<◌, ◌^◌, ◌&&◌, not, nat_le, [], ◌∷◌, ◌++◌, false, length, replicate, slice_set, slice_index_or, vec_len, option_map, Ok, Err, IfOk, OnOk, OnErr, IfErr, IsTrue};
ghost use Rattle.std.specs.List.{last_or};
ghost use Rattle.spec_text.specs.TextLines.{lines, words, unsigned_of};
ghost use Rattle.spec_text.specs.declared.script.Timed.{Timed};
ghost use Rattle.spec_text.specs.Scripts.{is_out, actions_in, is_script};
ghost use Rattle.spec_text.specs.ScriptText.{bare, bare_of, header_of, read_header, lane_action_of, with_lane_action, at_or_zero, read_lane_line, lanes_from, script_of};
ghost use Rattle.spec_base.specs.Pieces.{has_byte};
ghost use Rattle.lgx_journal.specs.Lines.{is_plain};
ghost use Rattle.lgx_journal.specs.Reading.{IfLine, IfCode, lane_action, lane_fault, first_read};
ghost use Rattle.spec_base.specs.declared.limits.TheConstants.{MAX_ACTIONS, OWN_LANE};

use crate::actions::action_of;
use crate::error::{JournalError, LineError, at_line};
use crate::lines::{is_last, is_skipped, next_line, split_lane};
use crate::words::{next_word, split_word, unsigned_of};
use lgx_num::{Items, Memory};
use spec_base::limits::{MAX_ACTIONS, MAX_LINE_BYTES, MAX_SCRIPT_STEPS, OWN_LANE};
use spec_text::{JournalCode, JournalFault, Script, Timed};
use std::alloc::Global;
use std::marker::Model;
use std::mem;

/// A script as far as it is read, and the number of its actions.
#[derive(Drop)]
struct Draft {
    steps: u32,
    pace: u32,
    lanes: Vec<Items<Timed>>,
    actions: u32,
}

impl Model for Draft {
    ghost use Rattle.std.specs.Prelude.{◌≡◌, ◌<◌};
    ghost use Rattle.spec_text.specs.Scripts.{Script as Seen, script, actions_in};

    ghost Value = { Seen };

    ghost view = { λ d. script d.steps d.pace d.lanes.items };

    ghost invariant = { λ d. (0 < d.pace) × (d.actions ≡ actions_in (script d.steps d.pace d.lanes.items)) };
}

/// Whether a number of steps, or a pace, is out of range.
fn is_out(number: u32) -> bool
    ensures { result ≡ is_out number }
{
    number == 0 || number > MAX_SCRIPT_STEPS
}

/// Whether a script may have `steps` steps, the pace `pace` and `lanes` lanes.
fn is_within(steps: u32, pace: u32, lanes: u32) -> bool
    ensures { result ≡ (not (is_out steps) && not (is_out pace) && nat_le lanes OWN_LANE) }
{
    !is_out(steps) && !is_out(pace) && lanes <= OWN_LANE
}

/// The steps, the pace and the number of lanes that three words are.
fn numbers_of(steps: &[u8], pace: &[u8], lanes: &[u8]) -> Option<(u32, u32, u32)>
    ensures { option_map (λ h. bare h.0 h.1 h.2) result ≡ bare_of (unsigned_of steps.now) (unsigned_of pace.now) (unsigned_of lanes.now) }
{
    let Some(steps) = unsigned_of(steps) else {
        return None;
    };
    let Some(pace) = unsigned_of(pace) else {
        return None;
    };
    let Some(lanes) = unsigned_of(lanes) else {
        return None;
    };
    Some((steps, pace, lanes))
}

/// The steps, the pace and the number of lanes of a first line: a verb, two words, and a text that has one more.
fn header_after(verb: &[u8], steps: &[u8], pace: &[u8], text: &[u8]) -> Option<(u32, u32, u32)>
    ensures { option_map (λ h. bare h.0 h.1 h.2) result ≡ header_of (verb.now ∷ steps.now ∷ pace.now ∷ words text.now) }
{
    let Some((lanes, after)) = next_word(text) else {
        return None;
    };
    if next_word(after).is_some() {
        return None;
    }
    if verb == b"run".as_slice() {
        return numbers_of(steps, pace, lanes);
    }
    None
}

/// The steps, the pace and the number of lanes of a script's first line.
fn header_of(line: &[u8]) -> Option<(u32, u32, u32)>
    ensures { option_map (λ h. bare h.0 h.1 h.2) result ≡ header_of (words line.now) }
{
    let Some((verb, after)) = next_word(line) else {
        return None;
    };
    let Some((steps, after)) = next_word(after) else {
        return None;
    };
    let Some((pace, after)) = next_word(after) else {
        return None;
    };
    header_after(verb, steps, pace, after)
}

/// `count` lanes without an action.
#[tactic(auto, using(crate::proofs::ReadLanes::replicate_more))]
fn empty_lanes(alloc: Global, count: u32) -> Result<Vec<Items<Timed>>, Memory>
    ensures { IfOk result (λ lanes. lanes.items ≡ replicate count []) }
{
    let mut lanes = Vec::new(alloc);
    for _ in 0..count {
        lanes.push(Items::of(Vec::new(alloc)))?;
    }
    Ok(lanes)
}

/// A script without an action, or the first cause of its first line.
#[tactic(auto, using(crate::proofs::ReadLanes::bare_actions))]
fn read_header(alloc: Global, line: &[u8]) -> Result<Draft, LineError>
    ensures draft { IfOk result (λ draft. read_header line.now ≡ Ok draft) }
    ensures code { IfErr result (λ e. IfCode e (λ code. read_header line.now ≡ Err code)) }
{
    if line.len() > MAX_LINE_BYTES {
        return Err(LineError::Code(JournalCode::J1));
    }
    let Some((steps, pace, lanes)) = header_of(line) else {
        return Err(LineError::Code(JournalCode::J1));
    };
    if !is_within(steps, pace, lanes) {
        return Err(LineError::Code(JournalCode::J4));
    }
    Ok(Draft {
        steps,
        pace,
        lanes: empty_lanes(alloc, lanes)?,
        actions: 0,
    })
}

/// The lane of a line, and its action with the tick from which on it may be made.
#[tactic(auto, using(crate::proofs::Parts::plain_after_word))]
fn lane_action_of(alloc: Global, line: &[u8]) -> Result<Option<(u32, Timed)>, Memory>
    requires { IsTrue (is_plain line.now) }
    ensures { IfOk result (λ o. option_map (λ a. lane_action a.0 a.1) o ≡ lane_action_of line.now) }
{
    let (lane, after) = split_lane(line);
    let (number, text) = split_word(after);
    let Some(lane) = lane else {
        return Ok(None);
    };
    let Some(at) = unsigned_of(number) else {
        return Ok(None);
    };
    let Some(action) = action_of(alloc, text)? else {
        return Ok(None);
    };
    Ok(Some((lane, Timed { at, action })))
}

/// The tick of the last action of a lane, or 0.
#[tactic(auto, using(crate::proofs::ReadLanes::last_at_end, crate::proofs::ReadLanes::last_of_none))]
fn last_at(lane: &[Timed]) -> u32
    ensures { result ≡ at_or_zero (last_or None lane.now) }
{
    if lane.is_empty() {
        return 0;
    }
    lane[lane.len() - 1].at
}

/// Puts an action last in its lane.
fn put_action(
    alloc: Global,
    lanes: &mut Vec<Items<Timed>>,
    lane: usize,
    timed: Timed,
) -> Result<(), Memory>
    requires { lane < vec_len lanes.old }
    ensures put { OnOk result (lanes.new.items ≡ slice_set lanes.old.items lane (slice_index_or lanes.old.items lane [] ++ timed ∷ [])) }
    ensures same { OnErr result (lanes.new.items ≡ lanes.old.items) }
{
    let mut items = mem::replace(&mut lanes[lane], Items::of(Vec::new(alloc))).into_vec();
    let pushed = items.push(timed);
    lanes[lane] = Items::of(items);
    pushed?;
    Ok(())
}

/// The first cause for which an action may not come last in its lane.
fn fault_of(draft: &Draft, lane: u32, at: u32) -> Option<JournalCode>
    ensures { result ≡ lane_fault draft.now lane at }
{
    if lane as usize >= draft.lanes.len() {
        return Some(JournalCode::J2);
    }
    if draft.actions >= MAX_ACTIONS as u32 {
        return Some(JournalCode::J4);
    }
    if at > draft.steps / draft.pace {
        return Some(JournalCode::J3);
    }
    if at < last_at(draft.lanes[lane as usize].as_slice()) {
        return Some(JournalCode::J5);
    }
    None
}

/// Puts an action last in its lane.
#[tactic(auto, using(crate::proofs::ReadLanes::actions_more))]
fn add_action(alloc: Global, draft: &mut Draft, lane: u32, timed: Timed) -> Result<(), Memory>
    requires lane { lane < length draft.old.lanes }
    requires few { actions_in draft.old < MAX_ACTIONS }
    ensures { OnOk result (draft.new ≡ with_lane_action draft.old (lane_action lane timed)) }
{
    put_action(alloc, &mut draft.lanes, lane as usize, timed)?;
    draft.actions += 1;
    Ok(())
}

/// The script with the line's action last in its lane, or the first cause of the line.
#[tactic(auto, using(crate::proofs::Parts::line_is_plain, crate::proofs::ReadLanes::line_faults, crate::proofs::ReadLanes::line_fits))]
fn read_lane_line(alloc: Global, draft: &mut Draft, line: &[u8]) -> Result<(), LineError>
    requires { has_byte 10 line.now ≡ false }
    ensures draft { OnOk result (read_lane_line draft.old line.now ≡ Ok draft.new) }
    ensures code { IfErr result (λ e. IfCode e (λ code. read_lane_line draft.old line.now ≡ Err code)) }
{
    if line.len() > MAX_LINE_BYTES {
        return Err(LineError::Code(JournalCode::J1));
    }
    let Some((lane, timed)) = lane_action_of(alloc, line)? else {
        return Err(LineError::Code(JournalCode::J1));
    };
    if let Some(code) = fault_of(draft, lane, timed.at) {
        return Err(LineError::Code(code));
    }
    add_action(alloc, draft, lane, timed)?;
    Ok(())
}

/// Reads the lines after the first, which has this number.
fn read_lanes(alloc: Global, draft: &mut Draft, first: u64, text: &[u8]) -> Result<(), JournalError>
    requires { first + length text.now < 2 ^ 63 }
    ensures draft { OnOk result (lanes_from (first + 1) draft.old (lines text.now) ≡ Ok draft.new) }
    ensures fault { IfErr result (λ e. IfLine e (λ fault. lanes_from (first + 1) draft.old (lines text.now) ≡ Err fault)) }
{
    let mut number = first;
    let mut rest = text;
    while let Some((line, after)) = next_line(rest) {
        number += 1;
        rest = after;
        if is_skipped(line) {
            continue;
        }
        if is_last(line) {
            return Ok(());
        }
        if let Err(error) = read_lane_line(alloc, draft, line) {
            return Err(at_line(error, number));
        }
    }
    Err(JournalError::Line(JournalFault {
        code: JournalCode::J1,
        line: number + 1,
    }))
}

/// Reads the lines from the first that isn't skipped, which has this number, and the text after it.
fn read_all(alloc: Global, line: &[u8], number: u64, text: &[u8]) -> Result<Draft, JournalError>
    requires { number + length text.now < 2 ^ 63 }
    ensures draft { IfOk result (λ draft. first_read number (lines text.now) (read_header line.now) ≡ Ok draft) }
    ensures fault { IfErr result (λ e. IfLine e (λ fault. first_read number (lines text.now) (read_header line.now) ≡ Err fault)) }
{
    let mut draft = match read_header(alloc, line) {
        Ok(draft) => draft,
        Err(error) => return Err(at_line(error, number)),
    };
    read_lanes(alloc, &mut draft, number, text)?;
    Ok(draft)
}

/// The script that a draft has come to.
fn finished(draft: Draft) -> Script
    requires { IsTrue (is_script draft) }
    ensures { result ≡ draft }
{
    let Draft {
        steps,
        pace,
        lanes,
        actions: _,
    } = draft;
    Script {
        steps,
        pace,
        lanes: Items::of(lanes),
    }
}

/// The script that a text is, or its first line with a cause and the line's first cause.
#[tactic(auto, using(crate::proofs::ReadLanes::read_is_script))]
pub fn read_script(alloc: Global, bytes: &[u8]) -> Result<Script, JournalError>
    ensures script { IfOk result (λ script. script_of bytes.now ≡ Ok script) }
    ensures fault { IfErr result (λ e. IfLine e (λ fault. script_of bytes.now ≡ Err fault)) }
{
    let mut number = 0u64;
    let mut rest = bytes;
    while let Some((line, after)) = next_line(rest) {
        number += 1;
        rest = after;
        if is_skipped(line) {
            continue;
        }
        let draft = read_all(alloc, line, number, rest)?;
        return Ok(finished(draft));
    }
    Err(JournalError::Line(JournalFault {
        code: JournalCode::J1,
        line: number + 1,
    }))
}
