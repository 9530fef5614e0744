// What a text names whose tags' names are spelled as they were declared.
ghost use Rattle.std.specs.Prelude.{◌≡◌, ◌+◌, ◌*◌, ◌≤◌, [], length, Ok, IfSome, IsTrue, true, false};
ghost use Rattle.spec_base.specs.declared.limits.TheConstants.{MAX_IMAGE_BYTES};
ghost use Rattle.spec_language.specs.Layout.{single};
ghost use Rattle.spec_language.specs.LayoutLaws.{SoundTypes};
ghost use Rattle.spec_language.specs.OperandForm.{are_digits, is_tag_name, tokens};
ghost use Rattle.spec_language.specs.Resolution.{in_form, operands};
ghost use Rattle.spec_language.specs.ResolutionLaws.{LiesIn, width};
ghost use Rattle.lgx_types.specs.Tables.{HasSize};
ghost use Rattle.lgx_tags.specs.FormStates.{completes};
ghost use Rattle.lgx_tags.specs.Parts.{part_of, ElementIsDigits};
ghost use Rattle.lgx_tags.specs.SpelledNames.{HasTagName};
ghost use Rattle.lgx_tags.specs.TextReading.{subscripts_of, NamesInBounds, dotted_at, element_at, open_at, close_at, step, found_after, AllInImage, AreSized, IsInImage};

use crate::data_type::is_array;
use crate::near::Hash;
use crate::part::{OperandPart, first_part, split_hashed};
use crate::resolve::{Names, Subscripts};
use crate::subscript::{find_dotted, find_indexed, find_numbered};
use lgx_types::TypeTable;
use spec_language::Found;
use std::alloc::Global;
use std::marker::Model;

/// A text that is read from left to right: what is found so far, and the array whose bracket is open.
#[derive(Drop)]
struct Spelled {
    array: Option<Found>,
    found: Found,
}

impl Model for Spelled {
    ghost use Rattle.lgx_tags.specs.SpelledNames.{listed};
    ghost use Rattle.lgx_tags.specs.TextReading.{Reading as Read};

    ghost Value = { Read };

    ghost view = { λ r. record { arrays = listed r.array; found = r.found } };
}

impl Spelled {
    /// The name of the text's tag is read.
    #[inline(always)]
    fn new(found: Found) -> Self
        ensures { result ≡ record { arrays = []; found = found } }
    {
        Spelled { array: None, found }
    }

    /// A dot and a word.
    #[inline(always)]
    fn enter_member(self, types: &TypeTable, word: &[u8]) -> Option<Self>
        requires { self.found.at ≤ 8 * MAX_IMAGE_BYTES }
        ensures { IfSome result (λ k. dotted_at types.now word.now self ≡ Ok k) }
    {
        let Spelled { array, found } = self;
        match find_dotted(types, found, word) {
            Ok(found) => Some(Spelled { array, found }),
            Err(_) => None,
        }
    }

    /// Digits in brackets.
    #[inline(always)]
    fn index_element(self, types: &TypeTable, digits: &[u8]) -> Option<Self>
        requires digits { IsTrue (are_digits 10 digits.now) }
        requires size { HasSize types.now (single self.found.of.base) }
        requires room { self.found.at + width types.now self.found.of ≤ 8 * MAX_IMAGE_BYTES }
        ensures { IfSome result (λ k. element_at types.now digits.now self ≡ Ok k) }
    {
        let Spelled { array, found } = self;
        match find_numbered(types, found, digits) {
            Ok(found) => Some(Spelled { array, found }),
            Err(_) => None,
        }
    }

    /// A bracket and the name of the tag after it, if no bracket is open.
    #[inline(always)]
    fn open_bracket<N: Names>(self, subscripts: Subscripts, names: &N, name: &[u8]) -> Option<Self>
        ensures opens { IfSome result (λ k. open_at (subscripts_of subscripts) (N.named names.now) name.now self ≡ Ok k) }
        ensures name { IfSome result (λ _. is_tag_name name.now ≡ true) }
    {
        let Subscripts::Operands = subscripts else {
            return None;
        };
        if !is_array(self.found.of) {
            return None;
        }
        let Spelled { array: None, found } = self else {
            return None;
        };
        let inner = names.spelled(name, Hash::of(name))?;
        Some(Spelled {
            array: Some(found),
            found: inner.found(),
        })
    }

    /// The bracket that closes the open one.
    #[inline(always)]
    fn close_bracket(self, alloc: Global, types: &TypeTable) -> Option<Self>
        requires { AreSized types.now self.arrays }
        ensures { IfSome result (λ k. close_at types.now self.arrays self.found ≡ Ok k) }
    {
        let Spelled { array, found } = self;
        let array = array?;
        match find_indexed(alloc, types, array, &found) {
            Ok(found) => Some(Spelled { array: None, found }),
            Err(_) => None,
        }
    }

    /// One more part of the text.
    #[inline(always)]
    fn step<N: Names>(
        self,
        alloc: Global,
        part: OperandPart,
        subscripts: Subscripts,
        types: &TypeTable,
        names: &N,
    ) -> Option<Self>
        requires fit { ElementIsDigits (part_of part) }
        requires placed { AllInImage types.now (N.bytes names.now) self }
        requires room { N.bytes names.now ≤ MAX_IMAGE_BYTES }
        ensures steps { IfSome result (λ k. step (subscripts_of subscripts) types.now (N.named names.now) (part_of part.entry) self ≡ Ok k) }
        ensures name { IfSome result (λ _. HasTagName (part_of part.entry)) }
    {
        match part {
            OperandPart::Dotted(word) => self.enter_member(types, word),
            OperandPart::Element(digits) => self.index_element(types, digits),
            OperandPart::Opened(name) => self.open_bracket(subscripts, names, name),
            OperandPart::Closed => self.close_bracket(alloc, types),
        }
    }

    /// The end of the text: the rest begins with no part.
    #[inline(always)]
    fn end(self, rest: &[u8]) -> Option<Found>
        ensures end { IfSome result (λ _. length rest.now ≡ 0) }
        ensures closed { IfSome result (λ _. self.arrays ≡ []) }
        ensures found { IfSome result (λ f. f ≡ self.found) }
    {
        if !rest.is_empty() {
            return None;
        }
        let Spelled { array, found } = self;
        match array {
            None => Some(found),
            Some(_) => None,
        }
    }
}

/// What is found where the text goes on so after its tag's name.
#[inline(always)]
fn find_from<N: Names>(
    alloc: Global,
    found: Found,
    text: &[u8],
    subscripts: Subscripts,
    types: &TypeTable,
    names: &N,
) -> Option<Found>
    requires sound { SoundTypes types.now }
    requires lie { NamesInBounds types.now (N.bytes names.now) (N.named names.now) }
    requires room { N.bytes names.now ≤ MAX_IMAGE_BYTES }
    requires placed { IsInImage types.now (N.bytes names.now) found }
    ensures reads { IfSome result (λ f. found_after (subscripts_of subscripts) types.now (N.named names.now) (tokens text.now) (record { arrays = []; found = found }) ≡ Ok f) }
    ensures form { IfSome result (λ _. completes (tokens text.now) (record { depth = 0; bit = false }) ≡ true) }
{
    let mut reading = Spelled::new(found);
    let mut rest = text;
    while let Some((part, after)) = first_part(rest) {
        reading = reading.step(alloc, part, subscripts, types, names)?;
        rest = after;
    }
    reading.end(rest)
}

/// What a text names whose tags' names are spelled as they were declared, and in which no bracket is inside another. There may be
/// none of others, and of some of these.
pub(crate) fn find_spelled<N: Names>(
    alloc: Global,
    text: &[u8],
    subscripts: Subscripts,
    types: &TypeTable,
    names: &N,
) -> Option<Found>
    requires sound { SoundTypes types.now }
    requires lie { NamesInBounds types.now (N.bytes names.now) (N.named names.now) }
    requires room { N.bytes names.now ≤ MAX_IMAGE_BYTES }
    ensures { IfSome result (λ f. in_form (subscripts_of subscripts) types.now (N.named names.now) text.now ≡ Ok f) }
{
    let (name, rest, hash) = split_hashed(text);
    let spot = names.spelled(name, hash)?;
    find_from(alloc, spot.found(), rest, subscripts, types, names)
}

/// What a text names that is the name of a tag or an alias alone, spelled as it was declared. There may be none of others, and of some
/// of these.
#[inline(always)]
pub(crate) fn find_alone<N: Names>(text: &[u8], types: &TypeTable, names: &N) -> Option<Found>
    requires sound { SoundTypes types.now }
    requires lie { NamesInBounds types.now (N.bytes names.now) (N.named names.now) }
    ensures answer { IfSome result (λ f. in_form operands types.now (N.named names.now) text.now ≡ Ok f) }
    ensures lies { IfSome result (λ f. LiesIn types.now (N.bytes names.now) f) }
{
    let (name, rest, hash) = split_hashed(text);
    if !rest.is_empty() {
        return None;
    }
    let spot = names.spelled(name, hash)?;
    Some(spot.found())
}
