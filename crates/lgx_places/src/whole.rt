// Whole controller tags.
ghost use Rattle.std.specs.Prelude.{◌≡◌, ◌≤◌, ◌++◌, ◌∷◌, [], true, length, IfOk, OnOk};
ghost use Rattle.spec_machine.specs.declared.limits.TheConstants.{MAX_SCOPE_TAGS};
ghost use Rattle.spec_project.specs.Places.{same_base, same_type};
ghost use Rattle.spec_language.specs.TagSpans.{spans_of};
ghost use Rattle.lgx_places.specs.WholeTags.{is_one_of, is_tag_at, meaning_type, tag_types};

use lgx_num::Memory;
use lgx_tags::{TagSpan, TagTable};
use lgx_types::TypeTable;
use spec_language::{Base, DataType};
use spec_project::{DescribedMeaning, DescribedTag};
use std::alloc::Global;

/// The type of a tag; an alias has none.
fn type_of(types: &TypeTable, tag: &DescribedTag) -> Option<DataType>
    ensures { result ≡ meaning_type types.now tag.now.meaning }
{
    match &tag.meaning {
        DescribedMeaning::AliasOf(_) => None,
        DescribedMeaning::OfType { of, dim } => Some(DataType {
            base: types.find(of).unwrap_or(Base::Bool),
            dim: *dim,
        }),
    }
}

/// Adds the type of a tag after the others, if it has one.
fn add_type(list: &mut Vec<DataType>, types: &TypeTable, tag: &DescribedTag) -> Result<(), Memory>
    ensures { OnOk result (list.new.items ≡ list.old.items ++ tag_types types.now (tag.now ∷ [])) }
{
    match type_of(types, tag) {
        Some(of) => {
            list.push(of)?;
            Ok(())
        }
        None => Ok(()),
    }
}

/// The types of a scope's tags, in order; aliases are left out.
pub(crate) fn tag_types(
    alloc: Global,
    types: &TypeTable,
    tags: &[DescribedTag],
) -> Result<Vec<DataType>, Memory>
    ensures value { IfOk result (λ list. list.items ≡ tag_types types.now tags.now) }
    ensures few { IfOk result (λ list. length list.items ≤ length tags.now) }
{
    let mut list = Vec::new(alloc);
    for (i, tag) in tags.iter().enumerate() {
        add_type(&mut list, types, tag)?;
    }
    Ok(list)
}

fn same_base(left: Base, right: Base) -> bool
    ensures { result ≡ same_base left right }
{
    match (left, right) {
        (Base::Bool, Base::Bool)
        | (Base::Sint, Base::Sint)
        | (Base::Int, Base::Int)
        | (Base::Dint, Base::Dint)
        | (Base::Timer, Base::Timer)
        | (Base::Counter, Base::Counter) => true,
        (Base::User(left), Base::User(right)) => left == right,
        _ => false,
    }
}

fn same_type(left: DataType, right: DataType) -> bool
    ensures { result ≡ same_type left right }
{
    same_base(left.base, right.base) && left.dim == right.dim
}

/// Whether a tag that lies so begins at this bit and has this type.
fn is_tag_at(at: u32, of: DataType, span: TagSpan, tag: DataType) -> bool
    ensures { result ≡ is_tag_at at of span tag }
{
    8 * u64::from(span.start) == u64::from(at) && same_type(tag, of)
}

/// Whether one of the first tags begins at this bit and has this type, where the first tags are of these types.
pub(crate) fn is_one_of(tags: &TagTable, types: &[DataType], at: u32, of: DataType) -> bool
    requires sealed { tags.now.sealed ≡ true }
    requires few { length types.now ≤ MAX_SCOPE_TAGS }
    ensures { result ≡ is_one_of at of (spans_of tags.now.declarations) types.now }
{
    for (i, tag) in types.iter().enumerate() {
        let Some(span) = tags.tag_at(i as u32) else {
            return false;
        };
        if is_tag_at(at, of, span, *tag) {
            return true;
        }
    }
    false
}
