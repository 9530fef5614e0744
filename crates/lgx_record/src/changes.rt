// The watched places that changed by an event.
ghost use Rattle.std.specs.Prelude.{◌≡◌, ◌+◌, ◌≤◌, ◌<◌, ◌^◌, length, IfOk, IfSome};
ghost use Rattle.spec_machine.specs.State.{State};
ghost use Rattle.lgx_image.specs.Grains.{NoneIsHit};
ghost use Rattle.lgx_watch.specs.declared.bits.TheConstants.{MAX_WATCHES};
ghost use Rattle.lgx_core.specs.Represents.{RepresentsController};
ghost use Rattle.lgx_record.specs.Changes.{numbers_at, change_line, AreInside, AreWatched, AreAsCompared, HasWritten, IsLoneWritten};
ghost use Rattle.lgx_record.specs.EventLines.{with_event_lines, Compared};

use crate::lines::{Stamp, log_line};
use lgx_core::Controller;
use lgx_num::{Memory, Place};
use lgx_watch::{Line, Log, WatchIndex, WatchSet};
use std::alloc::Global;

/// The numbers at places of the controller's image.
pub(crate) fn numbers_at(
    alloc: Global,
    controller: &Controller,
    places: &[Place],
) -> Result<Vec<i32>, Memory>
    requires { AreInside places.now controller.now.parts.image.bytes }
    ensures { (s : State) → RepresentsController controller.now s → IfOk result (λ numbers. numbers.items ≡ numbers_at s.image places.now) }
{
    let mut numbers = Vec::with_capacity(alloc, places.len())?;
    for place in places {
        numbers.push(controller.read(*place))?;
    }
    Ok(numbers)
}

/// Puts a line into the log for each watched place whose number has changed since it was last compared, in watch order, and
/// clears the hits if there are any. Only places that have a byte in a word that is hit are looked at.
#[inline(always)]
pub(crate) fn log_changes(
    log: &mut Log,
    values: &mut [i32],
    at: Stamp,
    controller: &mut Controller,
    watches: &WatchIndex,
)
    requires inside { AreInside watches.now controller.old.parts.image.bytes }
    requires are_watched { AreWatched watches.now controller.old.parts.image.watched }
    requires compared { AreAsCompared watches.now values.old controller.old.parts.image }
    requires room { log.old.lost + MAX_WATCHES < 2 ^ 63 }
    ensures compared { (s : State) → RepresentsController controller.old s → Compared log.old log.new at values.old values.new (numbers_at s.image watches.now) }
    ensures represents { (s : State) → RepresentsController controller.old s → RepresentsController controller.new s }
    ensures spent { controller.new.spent ≡ controller.old.spent }
    ensures none_hit { NoneIsHit controller.new.parts.image }
    ensures watched { controller.new.parts.image.watched ≡ controller.old.parts.image.watched }
{
    if !controller.is_hit() {
        return;
    }
    log_hits(log, values, at, controller, watches);
}

/// Puts the lines of the watched places of hit words that changed into the log, and clears the hits.
fn log_hits(
    log: &mut Log,
    values: &mut [i32],
    at: Stamp,
    controller: &mut Controller,
    watches: &WatchIndex,
)
    requires inside { AreInside watches.now controller.old.parts.image.bytes }
    requires compared { AreAsCompared watches.now values.old controller.old.parts.image }
    requires room { log.old.lost + MAX_WATCHES < 2 ^ 63 }
    ensures compared { (s : State) → RepresentsController controller.old s → Compared log.old log.new at values.old values.new (numbers_at s.image watches.now) }
    ensures represents { (s : State) → RepresentsController controller.old s → RepresentsController controller.new s }
    ensures spent { controller.new.spent ≡ controller.old.spent }
    ensures none_hit { NoneIsHit controller.new.parts.image }
    ensures watched { controller.new.parts.image.watched ≡ controller.old.parts.image.watched }
{
    match lone_written(controller, watches) {
        Some(watch) => compare_lone(log, values, at, controller, watches.places(), watch),
        None => compare_written(log, values, at, controller, watches),
    }
    controller.clear_hits();
}

/// The one watched place that has a byte in a word that is hit; None if it isn't found at once, since more are or may be.
#[inline(always)]
fn lone_written(controller: &Controller, watches: &WatchIndex) -> Option<u32>
    ensures known { IfSome result (λ n. n < length watches.now) }
    ensures lone { IfSome result (λ n. IsLoneWritten watches.now controller.now.parts.image.hits n) }
{
    let word = controller.next_hit(0)?;
    let next = word.checked_add(1)?;
    if controller.next_hit(next).is_some() {
        return None;
    }
    watches.lone_of(word)
}

/// Compares one place of `places`. All others have the number last compared.
#[inline(always)]
fn compare_lone(
    log: &mut Log,
    values: &mut [i32],
    at: Stamp,
    controller: &Controller,
    places: &[Place],
    watch: u32,
)
    requires inside { AreInside places.now controller.now.parts.image.bytes }
    requires known { watch < length places.now }
    requires compared { AreAsCompared places.now values.old controller.now.parts.image }
    requires lone { IsLoneWritten places.now controller.now.parts.image.hits watch }
    requires room { log.old.lost + 1 < 2 ^ 63 }
    ensures { (s : State) → RepresentsController controller.now s → Compared log.old log.new at values.old values.new (numbers_at s.image places.now) }
{
    let number = controller.read(places[watch as usize]);
    compare(log, &mut values[watch as usize], at, watch, number);
}

/// Compares the places that have a byte in a word that is hit.
#[cold]
#[inline(never)]
fn compare_written(
    log: &mut Log,
    values: &mut [i32],
    at: Stamp,
    controller: &Controller,
    watches: &WatchIndex,
)
    requires inside { AreInside watches.now controller.now.parts.image.bytes }
    requires compared { AreAsCompared watches.now values.old controller.now.parts.image }
    requires room { log.old.lost + MAX_WATCHES < 2 ^ 63 }
    ensures { (s : State) → RepresentsController controller.now s → Compared log.old log.new at values.old values.new (numbers_at s.image watches.now) }
{
    let written = written_watches(controller, watches);
    compare_all(log, values, at, controller, watches.places(), &written);
}

/// The watched places that have a byte in a word that is hit.
fn written_watches(controller: &Controller, watches: &WatchIndex) -> WatchSet
    requires inside { AreInside watches.now controller.now.parts.image.bytes }
    ensures { HasWritten watches.now controller.now.parts.image.hits result }
{
    let mut written = WatchSet::new();
    let mut from = 0;
    while let Some(word) = controller.next_hit(from) {
        written.join(&watches.of_word(word));
        let Some(next) = word.checked_add(1) else {
            return written;
        };
        from = next;
    }
    written
}

/// Compares the places of a set, each of which is one of `places`, in order. All other places have the number last compared.
fn compare_all(
    log: &mut Log,
    values: &mut [i32],
    at: Stamp,
    controller: &Controller,
    places: &[Place],
    written: &WatchSet,
)
    requires inside { AreInside places.now controller.now.parts.image.bytes }
    requires few { length places.now ≤ MAX_WATCHES }
    requires compared { AreAsCompared places.now values.old controller.now.parts.image }
    requires written { HasWritten places.now controller.now.parts.image.hits written.now }
    requires room { log.old.lost + MAX_WATCHES < 2 ^ 63 }
    ensures { (s : State) → RepresentsController controller.now s → Compared log.old log.new at values.old values.new (numbers_at s.image places.now) }
{
    let mut from = 0;
    while let Some(watch) = written.next(from) {
        let number = controller.read(places[watch as usize]);
        compare(log, &mut values[watch as usize], at, watch, number);
        from = watch + 1;
    }
}

/// Puts a line into the log if a watched place has another number than it had, and keeps the number.
fn compare(log: &mut Log, value: &mut i32, at: Stamp, watch: u32, number: i32)
    requires room { log.old.lost + 1 < 2 ^ 63 }
    ensures log { log.new ≡ with_event_lines log.old at (change_line watch value.old number) }
    ensures lost { log.new.lost ≤ log.old.lost + 1 }
    ensures value { value.new ≡ number }
{
    if *value != number {
        *value = number;
        log_line(
            log,
            at,
            Line::Set {
                watch,
                value: number,
            },
        );
    }
}

/// Watches the words of places, which lie in the image. What the controller represents is as before.
pub(crate) fn watch_all(controller: &mut Controller, places: &[Place])
    requires { AreInside places.now controller.old.parts.image.bytes }
    ensures represents { (s : State) → RepresentsController controller.old s → RepresentsController controller.new s }
    ensures spent { controller.new.spent ≡ controller.old.spent }
    ensures bytes { controller.new.parts.image.bytes ≡ controller.old.parts.image.bytes }
    ensures watched { AreWatched places.now controller.new.parts.image.watched }
{
    for place in places {
        controller.watch(*place);
    }
}
