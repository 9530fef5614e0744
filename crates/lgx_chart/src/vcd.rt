// Writes a report as a wave file.
ghost use Rattle.std.specs.Prelude.{◌≡◌, ◌++◌, codes, None, OnOk, IfOk};
ghost use Rattle.std.specs.List.{flat_map, join_with_byte, list_all};
ghost use Rattle.lgx_num.specs.Name.{is_name_byte};
ghost use Rattle.lgx_chart.specs.Vcd.{binary, level_of, value_of, begun, valued, change, stamp, last_time, changes_from, reference, task_signal, kind_text, watch_signal, unit_of, ending, opening, signals, first_value, first_values, idle_task, beginning, begun_at, after_signals, wave_of, vcd_text};

use crate::asked::{Asked, View, WatchedPlace};
use crate::clock::{Clock, time_of};
use crate::entry::{Chart, End, Entry, Note};
use crate::places::{is_bool, places_of};
use crate::text_out::{push, push_count, push_joined};
use crate::vcd_texts::{
    end_text, idle_text, lost_text, other_signals, task_text, tasks_scope, timescale_text,
    values_text, version_text, watch_text, watches_scope, wire_text,
};
use lgx_num::{Items, Memory, is_name_byte};
use std::alloc::Global;

/// Adds the lowest `count` binary digits of a number.
#[tactic(auto, using(crate::proofs::Texts::binary_none, crate::proofs::Texts::binary_step))]
fn push_binary(text: &mut Vec<u8>, count: u32, number: u32) -> Result<(), Memory>
    ensures { OnOk result (text.new.items ≡ text.old.items ++ binary count number) }
{
    if count == 0 {
        return Ok(());
    }
    push_binary(text, count - 1, number / 2)?;
    text.push(b'0' + (number % 2) as u8)?;
    Ok(())
}

/// Adds the program and its version.
fn push_version(
    text: &mut Vec<u8>,
    alloc: Global,
    program: &[u8],
    version: u32,
) -> Result<(), Memory>
    ensures { OnOk result (text.new.items ≡ text.old.items ++ begun program.now version) }
{
    push(text, b"s")?;
    push(text, program)?;
    push_count(text, alloc, b":", u64::from(version))
}

/// Adds the signal of a task or of a watched place, whose name has this before it.
fn push_signal(text: &mut Vec<u8>, mark: &[u8], name: &[u8]) -> Result<(), Memory>
    ensures { OnOk result (text.new.items ≡ text.old.items ++ mark.now ++ name.now ++ codes "\n") }
{
    push(text, mark)?;
    push(text, name)?;
    push(text, b"\n")
}

/// Adds the begin of a task's scan.
fn push_begin(
    text: &mut Vec<u8>,
    alloc: Global,
    task: &[u8],
    program: &[u8],
    version: u32,
) -> Result<(), Memory>
    ensures { OnOk result (text.new.items ≡ text.old.items ++ begun program.now version ++ codes " t:" ++ task.now ++ codes "\n") }
{
    push_version(text, alloc, program, version)?;
    push_signal(text, b" t:", task)
}

/// Adds a value of a watched place.
fn push_set(text: &mut Vec<u8>, is_bool: bool, watch: &[u8], value: i32) -> Result<(), Memory>
    ensures { OnOk result (text.new.items ≡ text.old.items ++ valued is_bool watch.now value) }
{
    push_value(text, is_bool, value)?;
    push_signal(text, b"w:", watch)
}

/// Adds words as one string, and its signal.
fn push_string(text: &mut Vec<u8>, words: &[Items<u8>], signal: &[u8]) -> Result<(), Memory>
    ensures { OnOk result (text.new.items ≡ text.old.items ++ codes "s" ++ join_with_byte 95 words.now ++ signal.now) }
{
    push(text, b"s")?;
    push_joined(text, b'_', words)?;
    push(text, signal)
}

/// The level of a one-bit wire.
fn level_of(value: i32) -> &'static [u8]
    ensures { result.now ≡ level_of value }
{
    if value == 0 { b"0" } else { b"1" }
}

/// Adds a value: a BOOL as one digit, a number as its 32 binary digits.
fn push_value(text: &mut Vec<u8>, is_bool: bool, value: i32) -> Result<(), Memory>
    ensures { OnOk result (text.new.items ≡ text.old.items ++ value_of is_bool value) }
{
    if is_bool {
        return push(text, level_of(value));
    }
    push(text, b"b")?;
    push_binary(text, 32, value.cast_unsigned())?;
    push(text, b" ")
}

/// Adds what a line changes.
fn push_change(
    text: &mut Vec<u8>,
    alloc: Global,
    places: &[WatchedPlace],
    note: &Note,
) -> Result<(), Memory>
    ensures { OnOk result (text.new.items ≡ text.old.items ++ change places.now note.now) }
{
    match note {
        Note::Begin {
            task,
            program,
            version,
        } => push_begin(text, alloc, task.as_slice(), program.as_slice(), *version),
        Note::Reply(words) => push_string(text, words.as_slice(), b" reply\n"),
        Note::Fault(words) => push_string(text, words.as_slice(), b" fault\n"),
        Note::Set { watch, value } => push_set(
            text,
            is_bool(places, watch.as_slice()),
            watch.as_slice(),
            *value,
        ),
    }
}

/// Adds a time, unless it is the last one.
fn push_stamp(text: &mut Vec<u8>, alloc: Global, last: Option<u32>, time: u32) -> Result<(), Memory>
    ensures { OnOk result (text.new.items ≡ text.old.items ++ stamp last time) }
{
    if let Some(last) = last {
        if last == time {
            return Ok(());
        }
    }
    push_count(text, alloc, b"#", u64::from(time))?;
    push(text, b"\n")
}

/// The time of the end, within the times that are shown.
fn last_time(view: View, end: &End) -> u32
    ensures { result ≡ last_time view end.now }
{
    view.from
        .max(view.to.min(time_of(view.clock, end.tick, end.step)))
}

/// Adds the changes that are shown, each time before its first change.
fn push_changes(
    text: &mut Vec<u8>,
    alloc: Global,
    view: View,
    places: &[WatchedPlace],
    begun: Option<u32>,
    entries: &[Entry],
    end: &End,
) -> Result<(), Memory>
    ensures { OnOk result (text.new.items ≡ text.old.items ++ changes_from view places.now begun entries.now end.now) }
{
    let mut last = begun;
    for entry in entries {
        if view.is_shown(entry) {
            let time = time_of(view.clock, entry.tick, entry.step);
            push_stamp(text, alloc, last, time)?;
            push_change(text, alloc, places, &entry.note)?;
            last = Some(time);
        }
    }
    push_stamp(text, alloc, last, last_time(view, end))
}

/// Whether a text is letters, digits and underscores.
fn is_plain(text: &[u8]) -> bool
    ensures { result ≡ list_all is_name_byte text.now }
{
    text.iter().all(|byte| is_name_byte(*byte))
}

/// Adds a text as the reference of a signal.
fn push_reference(text: &mut Vec<u8>, name: &[u8]) -> Result<(), Memory>
    ensures { OnOk result (text.new.items ≡ text.old.items ++ reference name.now) }
{
    if !is_plain(name) {
        push(text, b"\\")?;
    }
    push(text, name)
}

/// Adds the signal of a task.
fn push_task_signal(text: &mut Vec<u8>, task: &[u8]) -> Result<(), Memory>
    ensures { OnOk result (text.new.items ≡ text.old.items ++ task_signal task.now) }
{
    push(text, task_text())?;
    push(text, task)?;
    push(text, b" ")?;
    push(text, task)?;
    push(text, end_text())
}

/// Adds the signals of tasks.
fn push_task_signals(text: &mut Vec<u8>, tasks: &[Items<u8>]) -> Result<(), Memory>
    ensures { OnOk result (text.new.items ≡ text.old.items ++ flat_map task_signal tasks.now) }
{
    for task in tasks {
        push_task_signal(text, task.as_slice())?;
    }
    Ok(())
}

/// What is before the name of a watched place.
fn kind_text(is_bool: bool) -> &'static [u8]
    ensures { result.now ≡ kind_text is_bool }
{
    if is_bool { wire_text() } else { watch_text() }
}

/// Adds the signal of a watched place.
fn push_watch_signal(text: &mut Vec<u8>, place: &WatchedPlace) -> Result<(), Memory>
    ensures { OnOk result (text.new.items ≡ text.old.items ++ watch_signal place.now) }
{
    let name = place.name.as_slice();
    push(text, kind_text(place.is_bool))?;
    push(text, name)?;
    push(text, b" ")?;
    push_reference(text, name)?;
    push(text, end_text())
}

/// Adds the signals of watched places.
fn push_watch_signals(text: &mut Vec<u8>, places: &[WatchedPlace]) -> Result<(), Memory>
    ensures { OnOk result (text.new.items ≡ text.old.items ++ flat_map watch_signal places.now) }
{
    for place in places {
        push_watch_signal(text, place)?;
    }
    Ok(())
}

/// The unit of time.
fn unit_of(clock: Clock) -> &'static [u8]
    ensures { result.now ≡ unit_of clock }
{
    match clock {
        Clock::Step => b"1 ns",
        Clock::Tick => b"1 ms",
    }
}

/// Adds how the report ends.
fn push_ending(text: &mut Vec<u8>, alloc: Global, end: &End) -> Result<(), Memory>
    ensures { OnOk result (text.new.items ≡ text.old.items ++ ending end.now) }
{
    push(text, version_text())?;
    push(text, end.mode.as_slice())?;
    push_count(text, alloc, lost_text(), u64::from(end.lost))
}

/// Adds what is before the signals.
fn push_opening(text: &mut Vec<u8>, alloc: Global, clock: Clock, end: &End) -> Result<(), Memory>
    ensures { OnOk result (text.new.items ≡ text.old.items ++ opening clock end.now) }
{
    push_ending(text, alloc, end)?;
    push(text, timescale_text())?;
    push(text, unit_of(clock))?;
    push(text, end_text())
}

/// Adds the signals: the tasks in the order in which they first began, the watched places.
fn push_signals(
    text: &mut Vec<u8>,
    tasks: &[Items<u8>],
    places: &[WatchedPlace],
) -> Result<(), Memory>
    ensures { OnOk result (text.new.items ≡ text.old.items ++ signals tasks.now places.now) }
{
    push(text, tasks_scope())?;
    push_task_signals(text, tasks)?;
    push(text, watches_scope())?;
    push_watch_signals(text, places)?;
    push(text, other_signals())
}

/// Adds the value of a place at the first time, if it is known.
fn push_first_value(text: &mut Vec<u8>, place: &WatchedPlace) -> Result<(), Memory>
    ensures { OnOk result (text.new.items ≡ text.old.items ++ first_value place.now) }
{
    match place.start {
        Some(value) => push_set(text, place.is_bool, place.name.as_slice(), value),
        None => Ok(()),
    }
}

/// The values that are known at the first time.
fn first_values(alloc: Global, places: &[WatchedPlace]) -> Result<Vec<u8>, Memory>
    ensures { IfOk result (λ text. text.items ≡ first_values places.now) }
{
    let mut text = Vec::new(alloc);
    for place in places {
        push_first_value(&mut text, place)?;
    }
    Ok(text)
}

/// Adds that no program of these tasks began.
fn push_idle_tasks(text: &mut Vec<u8>, tasks: &[Items<u8>]) -> Result<(), Memory>
    ensures { OnOk result (text.new.items ≡ text.old.items ++ flat_map idle_task tasks.now) }
{
    for task in tasks {
        push_signal(text, b"s- t:", task.as_slice())?;
    }
    Ok(())
}

/// Adds the values at the first time, if some are known.
#[tactic(auto, using(crate::proofs::Texts::some_values, crate::proofs::Texts::no_values))]
fn push_beginning(
    text: &mut Vec<u8>,
    alloc: Global,
    from: u32,
    tasks: &[Items<u8>],
    values: &[u8],
) -> Result<(), Memory>
    ensures { OnOk result (text.new.items ≡ text.old.items ++ beginning from tasks.now values.now) }
{
    if values.is_empty() {
        return Ok(());
    }
    push_stamp(text, alloc, None, from)?;
    push(text, values_text())?;
    push(text, values)?;
    push_idle_tasks(text, tasks)?;
    push(text, idle_text())
}

/// The time that is before the changes.
#[tactic(auto, using(crate::proofs::Texts::some_values, crate::proofs::Texts::no_values))]
fn begun_at(from: u32, values: &[u8]) -> Option<u32>
    ensures { result ≡ begun_at from values.now }
{
    if values.is_empty() {
        return None;
    }
    Some(from)
}

/// Adds what is after the signals.
fn push_after_signals(
    text: &mut Vec<u8>,
    alloc: Global,
    view: View,
    places: &[WatchedPlace],
    chart: &Chart,
) -> Result<(), Memory>
    ensures { OnOk result (text.new.items ≡ text.old.items ++ after_signals view places.now chart.now) }
{
    let values = first_values(alloc, places)?;
    push_beginning(text, alloc, view.from, chart.tasks.as_slice(), &values)?;
    push_changes(
        text,
        alloc,
        view,
        places,
        begun_at(view.from, &values),
        chart.entries.as_slice(),
        &chart.end,
    )
}

/// Adds a report as the text of a wave file that shows these places.
fn push_wave(
    text: &mut Vec<u8>,
    alloc: Global,
    view: View,
    places: &[WatchedPlace],
    chart: &Chart,
) -> Result<(), Memory>
    ensures { OnOk result (text.new.items ≡ text.old.items ++ wave_of view places.now chart.now) }
{
    push_opening(text, alloc, view.clock, &chart.end)?;
    push_signals(text, chart.tasks.as_slice(), places)?;
    push_after_signals(text, alloc, view, places, chart)
}

/// A report as the text of a wave file, with one signal a task that began and one a watched place; replies and faults have one
/// each. Out of memory is the one fault.
pub fn vcd_text(alloc: Global, asked: &Asked, chart: &Chart) -> Result<Vec<u8>, Memory>
    ensures { IfOk result (λ text. text.items ≡ vcd_text asked.now chart.now) }
{
    let places = places_of(alloc, asked, chart)?;
    let mut text = Vec::new(alloc);
    push_wave(&mut text, alloc, asked.view, &places, chart)?;
    Ok(text)
}
