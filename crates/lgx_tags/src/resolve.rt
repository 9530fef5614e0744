// What an operand's text names.
ghost use Rattle.std.specs.Prelude.{◌≡◌, ◌+◌, ◌*◌, ◌≤◌, [], IfOk, IsTrue};
ghost use Rattle.spec_base.specs.declared.limits.TheConstants.{MAX_IMAGE_BYTES};
ghost use Rattle.spec_language.specs.Layout.{single};
ghost use Rattle.spec_language.specs.LayoutLaws.{SoundTypes};
ghost use Rattle.spec_language.specs.OperandForm.{are_digits};
ghost use Rattle.spec_language.specs.Resolution.{in_form};
ghost use Rattle.spec_language.specs.ResolutionLaws.{LiesIn, width};
ghost use Rattle.lgx_types.specs.Tables.{HasSize};
ghost use Rattle.lgx_tags.specs.Parts.{part_of, ElementIsDigits};
ghost use Rattle.lgx_tags.specs.TextReading.{subscripts_of, AnswersTag, NamesInBounds, dotted_at, element_at, open_at, close_at, step, end_after, AllInImage, AreSized};

use crate::data_type::is_array;
use crate::error::TagError;
use crate::form::is_form;
use crate::layout::FixedPlace;
use crate::near::Hash;
use crate::part::{OperandPart, first_part, split_word};
use crate::spelled::find_spelled;
use crate::subscript::{find_dotted, find_indexed, find_numbered};
use lgx_num::is_name;
use lgx_types::TypeTable;
use spec_language::{Found, TagCode};
use std::alloc::Global;
use std::marker::Model;

/// What may be a subscript.
#[derive(Clone, Copy)]
pub(crate) enum Subscripts {
    /// A number, or an operand that names an integer.
    Operands,
    /// A number: an operand in brackets is G6.
    NumbersAlone,
}

/// What the names of tags stand for, seen from one scope.
pub(crate) trait Names {
    ghost use Rattle.std.specs.Prelude.{◌≡◌, ℕ, List, Result, IfSome, Ok, true};
    ghost use Rattle.spec_language.specs.OperandForm.{is_tag_name};
    ghost use Rattle.lgx_tags.specs.Chains.{found_at};
    ghost use Rattle.spec_language.specs.declared.tag.Found.{Found as Place};
    ghost use Rattle.spec_language.specs.declared.tag.TagCode.{TagCode as Code};

    // what each name stands for, and the length of the image that all of it lies in
    ghost named: { Self → List ℕ → Result Place Code };

    ghost bytes: { Self → ℕ };

    /// What a name stands for: a tag stands for itself, an alias for what its target names.
    fn named(&self, name: &[u8]) -> Result<Found, TagCode>
        ensures { result ≡ named self.now name.now };

    /// The same of a name that is spelled as it was declared, by its hash. It may be none for others, and for some of these.
    fn spelled(&self, name: &[u8], hash: Hash) -> Option<FixedPlace>
        ensures named { IfSome result (λ spot. named self.now name.now ≡ Ok (found_at spot)) }
        ensures name { IfSome result (λ _. is_tag_name name.now ≡ true) };
}

/// A text that is read from left to right: what is found so far, and the arrays whose brackets are open, the innermost last.
#[derive(Drop)]
struct Reading {
    arrays: Vec<Found>,
    found: Found,
}

impl Model for Reading {
    ghost use Rattle.std.specs.Prelude.{reverse};
    ghost use Rattle.lgx_tags.specs.TextReading.{Reading as Read};

    ghost Value = { Read };

    ghost view = { λ r. record { arrays = reverse r.arrays.items; found = r.found } };
}

impl Reading {
    /// The name of the text's tag is read.
    fn new(alloc: Global, found: Found) -> Self
        ensures { result ≡ record { arrays = []; found = found } }
    {
        Reading {
            arrays: Vec::new(alloc),
            found,
        }
    }

    /// A bracket and the name of the tag after it: G5 if it is at no array.
    fn open_bracket<N: Names>(
        self,
        subscripts: Subscripts,
        names: &N,
        name: &[u8],
    ) -> Result<Self, TagError>
        ensures { AnswersTag (open_at (subscripts_of subscripts) (N.named names.now) name.now self) result }
    {
        if !is_array(self.found.of) {
            return Err(TagError::Tag(TagCode::G5));
        }
        if let Subscripts::NumbersAlone = subscripts {
            return Err(TagError::Tag(TagCode::G6));
        }
        let inner = names.named(name)?;
        let Reading { mut arrays, found } = self;
        arrays.push(found)?;
        Ok(Reading {
            arrays,
            found: inner,
        })
    }

    /// A dot and a word.
    fn enter_member(self, types: &TypeTable, word: &[u8]) -> Result<Self, TagError>
        requires { self.found.at ≤ 8 * MAX_IMAGE_BYTES }
        ensures { AnswersTag (dotted_at types.now word.now self) result }
    {
        let Reading { arrays, found } = self;
        let found = find_dotted(types, found, word)?;
        Ok(Reading { arrays, found })
    }

    /// Digits in brackets.
    fn index_element(self, types: &TypeTable, digits: &[u8]) -> Result<Self, TagError>
        requires digits { IsTrue (are_digits 10 digits.now) }
        requires size { HasSize types.now (single self.found.of.base) }
        requires room { self.found.at + width types.now self.found.of ≤ 8 * MAX_IMAGE_BYTES }
        ensures { AnswersTag (element_at types.now digits.now self) result }
    {
        let Reading { arrays, found } = self;
        let found = find_numbered(types, found, digits)?;
        Ok(Reading { arrays, found })
    }

    /// The bracket that closes the innermost one.
    fn close_bracket(self, alloc: Global, types: &TypeTable) -> Result<Self, TagError>
        requires { AreSized types.now self.arrays }
        ensures { AnswersTag (close_at types.now self.arrays self.found) result }
    {
        let Reading { mut arrays, found } = self;
        let Some(array) = arrays.pop() else {
            return Err(TagError::Tag(TagCode::G10));
        };
        let found = find_indexed(alloc, types, array, &found)?;
        Ok(Reading { arrays, found })
    }

    /// One more part of the text.
    fn step<N: Names>(
        self,
        alloc: Global,
        part: OperandPart,
        subscripts: Subscripts,
        types: &TypeTable,
        names: &N,
    ) -> Result<Self, TagError>
        requires fit { ElementIsDigits (part_of part) }
        requires placed { AllInImage types.now (N.bytes names.now) self }
        requires room { N.bytes names.now ≤ MAX_IMAGE_BYTES }
        ensures { AnswersTag (step (subscripts_of subscripts) types.now (N.named names.now) (part_of part.entry) self) result }
    {
        match part {
            OperandPart::Dotted(word) => self.enter_member(types, word),
            OperandPart::Element(digits) => self.index_element(types, digits),
            OperandPart::Opened(name) => self.open_bracket(subscripts, names, name),
            OperandPart::Closed => self.close_bracket(alloc, types),
        }
    }

    /// The end of the text: the rest begins with no part.
    fn end(self, rest: &[u8]) -> Result<Found, TagError>
        ensures { AnswersTag (end_after rest.now self) result }
    {
        let Reading { arrays, found } = self;
        if rest.is_empty() && arrays.is_empty() {
            Ok(found)
        } else {
            Err(TagError::Tag(TagCode::G10))
        }
    }
}

/// What a name alone names.
fn resolve_name<N: Names>(names: &N, name: &[u8]) -> Result<Found, TagError>
    ensures { AnswersTag (N.named names.now name.now) result }
{
    Ok(names.named(name)?)
}

/// What a text of any form names, read part by part.
fn resolve_form<N: Names>(
    alloc: Global,
    text: &[u8],
    subscripts: Subscripts,
    types: &TypeTable,
    names: &N,
) -> Result<Found, TagError>
    requires sound { SoundTypes types.now }
    requires lie { NamesInBounds types.now (N.bytes names.now) (N.named names.now) }
    requires room { N.bytes names.now ≤ MAX_IMAGE_BYTES }
    ensures answer { AnswersTag (in_form (subscripts_of subscripts) types.now (N.named names.now) text.now) result }
    ensures lies { IfOk result (λ f. LiesIn types.now (N.bytes names.now) f) }
    ensures fixed { subscripts ≡ Subscripts.NumbersAlone → IfOk result (λ f. f.steps ≡ []) }
{
    if !is_form(text) {
        return Err(TagError::Tag(TagCode::G10));
    }
    let (name, mut rest) = split_word(text);
    let mut reading = Reading::new(alloc, names.named(name)?);
    while let Some((part, after)) = first_part(rest) {
        reading = reading.step(alloc, part, subscripts, types, names)?;
        rest = after;
    }
    reading.end(rest)
}

/// What an operand's text names, or the first cause why it names nothing.
///
/// G10, that the text is no operand form, comes before all others; these come as they are met from left to right. Memory is
/// taken for subscripts that are operands alone, and nothing recurses on how deep they are.
pub(crate) fn resolve_text<N: Names>(
    alloc: Global,
    text: &[u8],
    subscripts: Subscripts,
    types: &TypeTable,
    names: &N,
) -> Result<Found, TagError>
    requires sound { SoundTypes types.now }
    requires lie { NamesInBounds types.now (N.bytes names.now) (N.named names.now) }
    requires room { N.bytes names.now ≤ MAX_IMAGE_BYTES }
    ensures answer { AnswersTag (in_form (subscripts_of subscripts) types.now (N.named names.now) text.now) result }
    ensures lies { IfOk result (λ f. LiesIn types.now (N.bytes names.now) f) }
    ensures fixed { subscripts ≡ Subscripts.NumbersAlone → IfOk result (λ f. f.steps ≡ []) }
{
    if let Some(found) = find_spelled(alloc, text, subscripts, types, names) {
        return Ok(found);
    }
    if is_name(text) {
        return resolve_name(names, text);
    }
    resolve_form(alloc, text, subscripts, types, names)
}
