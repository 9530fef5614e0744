// The watched places of a picture.
ghost use Rattle.std.specs.Prelude.{◌≡◌, ◌++◌, map, IfOk, OnOk};
ghost use Rattle.std.specs.List.{filter_map};
ghost use Rattle.lgx_chart.specs.Places.{is_before, is_shown, set_to, after_line, value_at_start, shown, unknown, untold, places_of, is_bool_at, is_bool};

use crate::asked::{Asked, View, WatchedPlace, is_told};
use crate::clock::time_of;
use crate::entry::{Chart, Entry, Note};
use crate::words::owned;
use lgx_num::{Items, Memory};
use std::alloc::Global;

impl View {
    /// Whether a line's time is before those that are shown.
    fn is_before(self, entry: &Entry) -> bool
        ensures { result ≡ is_before self entry.now }
    {
        time_of(self.clock, entry.tick, entry.step) < self.from
    }

    /// Whether a line's time is shown.
    pub fn is_shown(self, entry: &Entry) -> bool
        ensures { result ≡ is_shown self entry.now }
    {
        let time = time_of(self.clock, entry.tick, entry.step);
        self.from <= time && time <= self.to
    }
}

/// The value that a line gives a place.
fn set_to(name: &[u8], note: &Note) -> Option<i32>
    ensures { result ≡ set_to name.now note.now }
{
    match note {
        Note::Set { watch, value } => {
            if watch.as_slice() == name {
                return Some(*value);
            }
            None
        }
        Note::Begin { .. } | Note::Reply(_) | Note::Fault(_) => None,
    }
}

/// The value after a line, if its time is before those that are shown.
fn after_line(view: View, name: &[u8], value: Option<i32>, entry: &Entry) -> Option<i32>
    ensures { result ≡ after_line view name.now value entry.now }
{
    if !view.is_before(entry) {
        return value;
    }
    match set_to(name, &entry.note) {
        Some(next) => Some(next),
        None => value,
    }
}

/// The value when the first time that is shown begins.
fn value_at_start(view: View, entries: &[Entry], name: &[u8], start: Option<i32>) -> Option<i32>
    ensures { result ≡ value_at_start view entries.now name.now start }
{
    let mut value = start;
    for entry in entries {
        value = after_line(view, name, value, entry);
    }
    value
}

/// A place as it is shown.
fn shown(
    alloc: Global,
    view: View,
    entries: &[Entry],
    place: &WatchedPlace,
) -> Result<WatchedPlace, Memory>
    ensures { IfOk result (λ p. p ≡ shown view entries.now place.now) }
{
    Ok(WatchedPlace {
        name: owned(alloc, place.name.as_slice())?,
        is_bool: place.is_bool,
        start: value_at_start(view, entries, place.name.as_slice(), place.start),
    })
}

/// Adds the places that are given.
fn push_told(
    places: &mut Vec<WatchedPlace>,
    alloc: Global,
    asked: &Asked,
    entries: &[Entry],
) -> Result<(), Memory>
    ensures { OnOk result (places.new.items ≡ places.old.items ++ map (shown asked.now.view entries.now) asked.now.places) }
{
    for place in asked.places.as_slice() {
        places.push(shown(alloc, asked.view, entries, place)?)?;
    }
    Ok(())
}

/// A place that isn't given, as it is shown.
fn unknown(
    alloc: Global,
    view: View,
    entries: &[Entry],
    name: &[u8],
) -> Result<WatchedPlace, Memory>
    ensures { IfOk result (λ p. p ≡ shown view entries.now (unknown name.now)) }
{
    Ok(WatchedPlace {
        name: owned(alloc, name)?,
        is_bool: false,
        start: value_at_start(view, entries, name, None),
    })
}

/// Adds the places that are named and not given.
fn push_untold(
    places: &mut Vec<WatchedPlace>,
    alloc: Global,
    asked: &Asked,
    entries: &[Entry],
    names: &[Items<u8>],
) -> Result<(), Memory>
    ensures { OnOk result (places.new.items ≡ places.old.items ++ map (shown asked.now.view entries.now) (filter_map (untold asked.now.places) names.now)) }
{
    for name in names {
        if !is_told(asked.places.as_slice(), name.as_slice()) {
            places.push(unknown(alloc, asked.view, entries, name.as_slice())?)?;
        }
    }
    Ok(())
}

/// The watched places of a picture, each with its value when the first time that is shown begins, if that is known: those that
/// are asked for, and then those that a report names besides.
pub fn places_of(alloc: Global, asked: &Asked, chart: &Chart) -> Result<Vec<WatchedPlace>, Memory>
    ensures { IfOk result (λ places. places.items ≡ places_of asked.now chart.now) }
{
    let mut places = Vec::new(alloc);
    let entries = chart.entries.as_slice();
    push_told(&mut places, alloc, asked, entries)?;
    push_untold(&mut places, alloc, asked, entries, chart.watches.as_slice())?;
    Ok(places)
}

/// Whether a place is a BOOL of that name.
fn is_bool_at(name: &[u8], place: &WatchedPlace) -> bool
    ensures { result ≡ is_bool_at name.now place.now }
{
    place.is_bool && place.name.as_slice() == name
}

/// Whether a BOOL of that name is among these places.
pub(crate) fn is_bool(places: &[WatchedPlace], name: &[u8]) -> bool
    ensures { result ≡ is_bool places.now name.now }
{
    places.iter().any(|place| is_bool_at(name, place))
}
