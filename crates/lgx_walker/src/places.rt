// The watched places of a project, and the numbers that are there.
ghost use Rattle.std.specs.Prelude.{◌≡◌, true, false, map, length, IfOk};
ghost use Rattle.lgx_num.specs.Image.{number, InBounds};
ghost use Rattle.spec_machine.specs.State.{State};
ghost use Rattle.lgx_core.specs.Represents.{RepresentsController};
ghost use Rattle.lgx_walker.specs.Places.{AreInside};

use lgx_core::Controller;
use lgx_edit::{PlantParts, Watch};
use lgx_num::{Items, Kind, Memory, Place};
use std::alloc::Global;

/// The places of watches.
fn watch_places(alloc: Global, watches: &[Watch]) -> Result<Vec<Place>, Memory>
    ensures { IfOk result (λ places. places.items ≡ map (λ w. w.place) watches.now) }
{
    let mut places = Vec::with_capacity(alloc, watches.len())?;
    for watch in watches {
        places.push(watch.place)?;
    }
    Ok(places)
}

/// The watched places of a project.
pub(crate) fn places_of(alloc: Global, project: &PlantParts) -> Result<Items<Place>, Memory>
    ensures { IfOk result (λ places. places ≡ map (λ w. w.place) project.now.watches) }
{
    let places = watch_places(alloc, project.watches.as_slice())?;
    Ok(Items::of(places))
}

/// The same places again.
pub(crate) fn places_again(alloc: Global, places: &[Place]) -> Result<Items<Place>, Memory>
    ensures { IfOk result (λ again. again ≡ places.now) }
{
    Ok(Items::of(Vec::from_slice(alloc, places)?))
}

/// Whether two lists of places are the same.
pub(crate) fn same_places(places: &[Place], others: &[Place]) -> bool
    ensures { result ≡ true → places.now ≡ others.now }
{
    if places.len() != others.len() {
        return false;
    }
    for i in 0..places.len() {
        if !same_place(places[i], others[i]) {
            return false;
        }
    }
    true
}

/// Whether two places are the same.
fn same_place(place: Place, other: Place) -> bool
    ensures { result ≡ true → place ≡ other }
{
    place == other
}

/// Whether a place lies in an image of `len` bytes.
fn lies_in(place: Place, len: u32) -> bool
    ensures yes { result ≡ true → InBounds place len }
    ensures no { result ≡ false → InBounds place len → ⊥ }
{
    let at = place.at as u64;
    let bits = 8 * (len as u64);
    match place.kind {
        Kind::Bool => at < bits,
        Kind::Sint => place.at % 8 == 0 && at + 8 <= bits,
        Kind::Int => place.at % 8 == 0 && at + 16 <= bits,
        Kind::Dint => place.at % 8 == 0 && at + 32 <= bits,
    }
}

/// The number at a place of the controller's image, or 0 if it doesn't lie there.
pub(crate) fn number_at(controller: &Controller, place: Place) -> i32
    ensures { (s : State) → RepresentsController controller.now s → InBounds place (length controller.now.parts.image.bytes) → result ≡ number s.image place }
{
    if lies_in(place, controller.image_len()) {
        controller.read(place)
    } else {
        0
    }
}

/// Reads the numbers at places of the controller's image. It takes no memory once `values` has had room for as many.
pub(crate) fn read_numbers(
    controller: &Controller,
    places: &[Place],
    values: &mut Vec<i32>,
) -> Result<(), Memory>
    ensures { IfOk result (λ _. (s : State) → RepresentsController controller.now s → AreInside places.now (length controller.now.parts.image.bytes) → values.new.items ≡ map (number s.image) places.now) }
{
    values.clear();
    for place in places {
        values.push(number_at(controller, *place))?;
    }
    Ok(())
}
