// The lanes of a drawing, and what the lines of a report say in them.
ghost use Rattle.std.specs.Prelude.{◌≡◌, ◌++◌, ◌≤◌, map, length, codes, IfOk, OnOk};
ghost use Rattle.std.specs.Fmt.{decimal, signed_decimal};
ghost use Rattle.std.specs.List.{join_with_byte};
ghost use Rattle.lgx_picture.specs.declared.lanes.Lane.TheVariants.{Task as TaskLane, Watch as WatchLane};
ghost use Rattle.lgx_picture.specs.Lanes.{lanes_of, name_of, class_of, short, begun_in, fault_in, reply_in, set_in, said_in};

use crate::sizes::{CUT_LETTERS, MAX_LANES, NAME_LETTERS};
use lgx_chart::{Note, WatchedPlace, owned, push, push_count, push_joined};
use lgx_num::{Items, Memory};
use std::alloc::Global;

/// What a lane shows.
#[derive(Drop)]
pub(crate) enum Lane {
    /// The begins of a task's programs.
    Task(Items<u8>),
    /// All faults.
    Faults,
    /// All replies.
    Replies,
    /// The values of a watched place.
    Watch(WatchedPlace),
}

/// Adds the lanes of tasks.
fn push_task_lanes(lanes: &mut Vec<Lane>, alloc: Global, tasks: &[Items<u8>]) -> Result<(), Memory>
    ensures { OnOk result (lanes.new.items ≡ lanes.old.items ++ map TaskLane tasks.now) }
{
    for task in tasks {
        lanes.push(Lane::Task(owned(alloc, task.as_slice())?))?;
    }
    Ok(())
}

/// A place of its own.
fn copied(alloc: Global, place: &WatchedPlace) -> Result<WatchedPlace, Memory>
    ensures { IfOk result (λ copy. copy ≡ place.now) }
{
    Ok(WatchedPlace {
        name: owned(alloc, place.name.as_slice())?,
        is_bool: place.is_bool,
        start: place.start,
    })
}

/// Adds the lanes of watched places.
fn push_watch_lanes(
    lanes: &mut Vec<Lane>,
    alloc: Global,
    places: &[WatchedPlace],
) -> Result<(), Memory>
    ensures { OnOk result (lanes.new.items ≡ lanes.old.items ++ map WatchLane places.now) }
{
    for place in places {
        lanes.push(Lane::Watch(copied(alloc, place)?))?;
    }
    Ok(())
}

/// The lanes of a report.
pub(crate) fn lanes_of(
    alloc: Global,
    tasks: &[Items<u8>],
    places: &[WatchedPlace],
) -> Result<Vec<Lane>, Memory>
    ensures lanes { IfOk result (λ lanes. lanes.items ≡ lanes_of tasks.now places.now) }
    ensures few { IfOk result (λ lanes. length lanes.items ≤ MAX_LANES) }
{
    let mut lanes = Vec::new(alloc);
    push_task_lanes(&mut lanes, alloc, tasks)?;
    lanes.push(Lane::Faults)?;
    lanes.push(Lane::Replies)?;
    push_watch_lanes(&mut lanes, alloc, places)?;
    lanes.truncate(MAX_LANES);
    Ok(lanes)
}

/// A name as it is written beside its lane.
fn push_short(text: &mut Vec<u8>, name: &[u8]) -> Result<(), Memory>
    ensures { OnOk result (text.new.items ≡ text.old.items ++ short name.now) }
{
    if name.len() <= NAME_LETTERS {
        return push(text, name);
    }
    push(text, b"..")?;
    push(text, &name[name.len() - CUT_LETTERS..])
}

/// A name as it is written beside its lane.
pub(crate) fn short(alloc: Global, name: &[u8]) -> Result<Vec<u8>, Memory>
    ensures { IfOk result (λ text. text.items ≡ short name.now) }
{
    let mut text = Vec::new(alloc);
    push_short(&mut text, name)?;
    Ok(text)
}

/// The words with spaces between them.
fn spaced(alloc: Global, words: &[Items<u8>]) -> Result<Items<u8>, Memory>
    ensures { IfOk result (λ text. text ≡ join_with_byte 32 words.now) }
{
    let mut text = Vec::new(alloc);
    push_joined(&mut text, b' ', words)?;
    Ok(Items::of(text))
}

/// The text at a begin: `PROGRAM:VERSION`.
fn begun(alloc: Global, program: &[u8], version: u32) -> Result<Items<u8>, Memory>
    ensures { IfOk result (λ text. text ≡ program.now ++ codes ":" ++ decimal version) }
{
    let mut text = Vec::new(alloc);
    push(&mut text, program)?;
    push_count(&mut text, alloc, b":", u64::from(version))?;
    Ok(Items::of(text))
}

/// The digits of a value, with `-` before them if it is negative.
pub(crate) fn digits_of(alloc: Global, value: i32) -> Result<Items<u8>, Memory>
    ensures { IfOk result (λ text. text ≡ signed_decimal value) }
{
    let digits = value.to_string(alloc)?;
    owned(alloc, digits.as_bytes())
}

/// A begin of that task.
fn begun_in(alloc: Global, name: &[u8], note: &Note) -> Result<Option<Items<u8>>, Memory>
    ensures { IfOk result (λ said. said ≡ begun_in name.now note.now) }
{
    match note {
        Note::Begin {
            task,
            program,
            version,
        } => {
            if task.as_slice() == name {
                return Ok(Some(begun(alloc, program.as_slice(), *version)?));
            }
            Ok(None)
        }
        Note::Reply(_) | Note::Fault(_) | Note::Set { .. } => Ok(None),
    }
}

/// The text at a fault, if the note is one.
fn fault_in(alloc: Global, note: &Note) -> Result<Option<Items<u8>>, Memory>
    ensures { IfOk result (λ said. said ≡ fault_in note.now) }
{
    match note {
        Note::Fault(words) => Ok(Some(spaced(alloc, words.as_slice())?)),
        Note::Begin { .. } | Note::Reply(_) | Note::Set { .. } => Ok(None),
    }
}

/// The text at a reply, if the note is one.
fn reply_in(alloc: Global, note: &Note) -> Result<Option<Items<u8>>, Memory>
    ensures { IfOk result (λ said. said ≡ reply_in note.now) }
{
    match note {
        Note::Reply(words) => Ok(Some(spaced(alloc, words.as_slice())?)),
        Note::Begin { .. } | Note::Fault(_) | Note::Set { .. } => Ok(None),
    }
}

/// A new value of that watched place.
fn set_in(alloc: Global, name: &[u8], note: &Note) -> Result<Option<Items<u8>>, Memory>
    ensures { IfOk result (λ said. said ≡ set_in name.now note.now) }
{
    match note {
        Note::Set { watch, value } => {
            if watch.as_slice() == name {
                return Ok(Some(digits_of(alloc, *value)?));
            }
            Ok(None)
        }
        Note::Begin { .. } | Note::Reply(_) | Note::Fault(_) => Ok(None),
    }
}

impl Lane {
    /// The name beside the lane.
    pub(crate) fn name(&self) -> &[u8]
        ensures { result.now ≡ name_of self.now }
    {
        match self {
            Lane::Task(name) => name.as_slice(),
            Lane::Faults => b"faults",
            Lane::Replies => b"replies",
            Lane::Watch(place) => place.name.as_slice(),
        }
    }

    /// The name of the lane's looks.
    pub(crate) fn class(&self) -> &'static [u8]
        ensures { result.now ≡ class_of self.now }
    {
        match self {
            Lane::Task(_) => b"task",
            Lane::Faults => b"fault",
            Lane::Replies => b"reply",
            Lane::Watch(_) => b"watch",
        }
    }

    /// What a line says in the lane, if it says something there.
    pub(crate) fn said_in(&self, alloc: Global, note: &Note) -> Result<Option<Items<u8>>, Memory>
        ensures { IfOk result (λ said. said ≡ said_in self.now note.now) }
    {
        match self {
            Lane::Task(name) => begun_in(alloc, name.as_slice(), note),
            Lane::Faults => fault_in(alloc, note),
            Lane::Replies => reply_in(alloc, note),
            Lane::Watch(place) => set_in(alloc, place.name.as_slice(), note),
        }
    }
}
