// Values at the start, and watched places.
ghost use Rattle.std.specs.Prelude.{◌≡◌, ◌<◌, ◌≤◌, ◌++◌, ◌∷◌, [], true, false, not, codes, filter_map, length, map, replicate, fold, IfOk, OnOk};
ghost use Rattle.lgx_num.specs.Number.{fits};
ghost use Rattle.lgx_num.specs.Image.{InBounds, write};
ghost use Rattle.spec_language.specs.Declarations.{bytes};
ghost use Rattle.spec_machine.specs.declared.limits.TheConstants.{MAX_PROGRAMS};
ghost use Rattle.spec_project.specs.declared.fault.ProjectCode.TheVariants.{P5};
ghost use Rattle.spec_project.specs.Faults.{first_at, here, in_field, refused_if};
ghost use Rattle.spec_project.specs.Limits.{IsWithinLimits};
ghost use Rattle.spec_project.specs.Places.{image_of, initial_fault, is_one_value, place_fault, place_named, place_of as found_place, places_fault, watch_of as named_watch, with_value};
ghost use Rattle.spec_project.specs.Tags.{declarations};
ghost use Rattle.lgx_edit.specs.Plants.{watch_of};
ghost use Rattle.lgx_json.specs.Answers.{Passes, ReadsField};

use crate::named::named;
use lgx_edit::{Watch, Watches};
use lgx_image::Image;
use lgx_json::ProjectError;
use lgx_num::{Items, Place, fits};
use lgx_tags::data_type::{integer_bits, is_array, kind_of};
use lgx_tags::{Found, TagTable};
use spec_language::{Base, DataType};
use spec_project::{Described, DescribedValue, ProjectCode};
use std::alloc::Global;

/// The image at the start, and the watched places.
#[derive(Drop)]
pub struct Places {
    pub image: Image,
    pub watches: Watches,
}

/// Whether the type is a BOOL or an integer, and no array.
fn is_one_value(of: DataType) -> bool
    ensures { result ≡ is_one_value of }
{
    !is_array(of) && (matches!(of.base, Base::Bool) || integer_bits(of.base) > 0)
}

/// The place that a text names: P9 if it names nothing, and P5 if that is no BOOL, no bit and no integer.
fn read_place(
    alloc: Global,
    tags: &TagTable,
    file: &Described,
    text: &[u8],
) -> Result<Place, ProjectError>
    requires few { length file.now.programs ≤ MAX_PROGRAMS }
    requires tags { tags.now ≡ record { declarations = declarations file.now; sealed = true } }
    ensures reads { ReadsField (place_fault file.now text.now) (place_named file.now text.now) result }
    ensures inside { IfOk result (λ place. InBounds place (bytes (declarations file.now))) }
{
    let found = named(alloc, tags, file, text)?;
    if !is_one_value(found.of) {
        return Err(ProjectError::here(alloc, ProjectCode::P5));
    }
    Ok(Place {
        kind: kind_of(found.of.base),
        at: found.at,
    })
}

/// Puts a value at a place: P5 if it doesn't fit there.
fn put_fitting(
    alloc: Global,
    image: &mut Image,
    place: Place,
    initial: &DescribedValue,
) -> Result<(), ProjectError>
    requires { InBounds place (length image.old.bytes) }
    ensures fault { Passes (refused_if (not (fits place.kind initial.now.value)) (here P5)) result }
    ensures put { OnOk result (image.new.bytes ≡ write image.old.bytes place initial.now.value) }
    ensures len { OnOk result (length image.new.bytes ≡ length image.old.bytes) }
{
    let value = initial.value;
    if !fits(place.kind, i64::from(value)) {
        return Err(ProjectError::here(alloc, ProjectCode::P5));
    }
    image.put(place, value);
    Ok(())
}

/// Puts a value at its place: P9 or P5 of the place, and then P5 if the value doesn't fit there.
fn put_value(
    alloc: Global,
    tags: &TagTable,
    file: &Described,
    image: &mut Image,
    initial: &DescribedValue,
) -> Result<(), ProjectError>
    requires few { length file.now.programs ≤ MAX_PROGRAMS }
    requires tags { tags.now ≡ record { declarations = declarations file.now; sealed = true } }
    requires len { length image.old.bytes ≡ bytes (declarations file.now) }
    ensures fault { Passes (initial_fault file.now initial.now) result }
    ensures put { OnOk result (image.new.bytes ≡ with_value file.now image.old.bytes initial.now) }
    ensures len { OnOk result (length image.new.bytes ≡ bytes (declarations file.now)) }
{
    let place = match read_place(alloc, tags, file, initial.tag.as_slice()) {
        Ok(place) => place,
        Err(error) => return Err(error.in_field(alloc, "tag")),
    };
    match put_fitting(alloc, image, place, initial) {
        Ok(()) => Ok(()),
        Err(error) => Err(error.in_field(alloc, "value")),
    }
}

/// Puts values at their places, in order: P9 or P5 of the first that is refused.
fn put_each(
    alloc: Global,
    tags: &TagTable,
    file: &Described,
    image: &mut Image,
    values: &[DescribedValue],
) -> Result<(), ProjectError>
    requires few { length file.now.programs ≤ MAX_PROGRAMS }
    requires tags { tags.now ≡ record { declarations = declarations file.now; sealed = true } }
    requires len { length image.old.bytes ≡ bytes (declarations file.now) }
    ensures fault { Passes (first_at (initial_fault file.now) values.now) result }
    ensures put { OnOk result (image.new.bytes ≡ fold (with_value file.now) image.old.bytes values.now) }
{
    for (i, value) in values.iter().enumerate() {
        match put_value(alloc, tags, file, image, value) {
            Ok(()) => {}
            Err(error) => return Err(error.at_place(alloc, i)),
        }
    }
    Ok(())
}

/// The image at the start, with no mark: all bytes are 0 before the initial values.
fn initial_image(alloc: Global, tags: &TagTable, file: &Described) -> Result<Image, ProjectError>
    requires few { length file.now.programs ≤ MAX_PROGRAMS }
    requires tags { tags.now ≡ record { declarations = declarations file.now; sealed = true } }
    ensures fault { Passes (in_field (codes "initial") (first_at (initial_fault file.now) file.now.initial)) result }
    ensures image { IfOk result (λ image. image.bytes ≡ image_of file.now) }
    ensures unmarked { IfOk result (λ image. image.marks ≡ replicate (length image.marks) false) }
{
    let mut image = Image::new(alloc, tags.bytes())?;
    match put_each(alloc, tags, file, &mut image, file.initial.as_slice()) {
        Ok(()) => {
            image.clear_marks();
            Ok(image)
        }
        Err(error) => Err(error.in_field(alloc, "initial")),
    }
}

/// A watched place, with its text as it is written: P9 or P5 of the place.
fn read_watch(
    alloc: Global,
    tags: &TagTable,
    file: &Described,
    text: &[u8],
) -> Result<Watch, ProjectError>
    requires few { length file.now.programs ≤ MAX_PROGRAMS }
    requires tags { tags.now ≡ record { declarations = declarations file.now; sealed = true } }
    ensures fault { Passes (place_fault file.now text.now) result }
    ensures watch { IfOk result (λ watch. filter_map (named_watch file.now) (text.now ∷ []) ≡ watch_of watch ∷ []) }
{
    let place = read_place(alloc, tags, file, text)?;
    let text = Items::of(Vec::from_slice(alloc, text)?);
    Ok(Watch { text, place })
}

/// Watched places in order: P9 or P5 of the first that is refused.
fn watches_of(
    alloc: Global,
    tags: &TagTable,
    file: &Described,
    texts: &[Items<u8>],
) -> Result<Watches, ProjectError>
    requires few { length file.now.programs ≤ MAX_PROGRAMS }
    requires tags { tags.now ≡ record { declarations = declarations file.now; sealed = true } }
    ensures fault { Passes (first_at (place_fault file.now) texts.now) result }
    ensures watches { IfOk result (λ made. map watch_of made ≡ filter_map (named_watch file.now) texts.now) }
{
    let mut made = Vec::with_capacity(alloc, texts.len())?;
    for (i, text) in texts.iter().enumerate() {
        match read_watch(alloc, tags, file, text.as_slice()) {
            Ok(watch) => made.push(watch)?,
            Err(error) => return Err(error.at_place(alloc, i)),
        }
    }
    Ok(Items::of(made))
}

/// The image at the start, with no mark, and the watched places: P9 or P5 of the first initial value that is refused, and
/// then of the first watched text. A later initial value of a place replaces an earlier one.
#[tactic(auto, unfolding(spec_project::specs::Places::places_fault))]
pub fn read_places(alloc: Global, tags: &TagTable, file: &Described) -> Result<Places, ProjectError>
    requires limits { IsWithinLimits file.now }
    requires tags { tags.now ≡ record { declarations = declarations file.now; sealed = true } }
    ensures fault { Passes (places_fault file.now) result }
    ensures image { IfOk result (λ places. places.image.bytes ≡ image_of file.now) }
    ensures unmarked { IfOk result (λ places. places.image.marks ≡ replicate (length places.image.marks) false) }
    ensures watches { IfOk result (λ places. map watch_of places.watches ≡ filter_map (named_watch file.now) file.now.watch) }
{
    let image = initial_image(alloc, tags, file)?;
    match watches_of(alloc, tags, file, file.watch.as_slice()) {
        Ok(watches) => Ok(Places { image, watches }),
        Err(error) => Err(error.in_field(alloc, "watch")),
    }
}
