// Which texts are names of tags.
ghost use Rattle.std.specs.Prelude.{◌≡◌, ◌-◌};
ghost use Rattle.std.specs.List.{list_all};
ghost use Rattle.lgx_num.specs.Name.{is_name_byte};
ghost use Rattle.spec_base.specs.Pieces.{pieces};
ghost use Rattle.spec_base.specs.declared.limits.TheConstants.{MAX_TAG_NAME_PARTS};
ghost use Rattle.spec_language.specs.OperandForm.{is_part, may_lead, is_joined, is_tag_name};
ghost use Rattle.lgx_tags.specs.TagNames.{are_parts};

use lgx_num::{is_name, is_name_byte, same, split_first};
use spec_base::limits::{MAX_NAME_BYTES, MAX_TAG_NAME_BYTES, MAX_TAG_NAME_PARTS};

/// The parts that may come after the first.
const MAX_FURTHER_PARTS: usize = MAX_TAG_NAME_PARTS - 1;

/// Whether a text is a tag name: a name, or 2 to 4 parts joined by colons (profile).
#[tactic(auto, using(crate::proofs::TagNames::named_tag))]
pub(crate) fn is_tag_name(text: &[u8]) -> bool
    ensures { result ≡ is_tag_name text.now }
{
    is_name(text) || (text.len() <= MAX_TAG_NAME_BYTES && is_joined(text))
}

/// A tag name but for its length.
#[tactic(auto, using(crate::proofs::TagNames::joined_alone, crate::proofs::TagNames::joined_parts))]
fn is_joined(text: &[u8]) -> bool
    ensures { result ≡ is_joined (pieces 58 text.now) }
{
    match split_first(text, b':') {
        Some((first, parts)) => may_lead(first) && are_parts(parts),
        None => is_name(text),
    }
}

/// A name that may come before a colon: `S` begins flags, and `Program` a text's scope.
fn may_lead(part: &[u8]) -> bool
    ensures { result ≡ may_lead part.now }
{
    is_name(part) && !same(part, b"S") && !same(part, b"Program")
}

/// What comes after the first colon: one to three parts.
fn are_parts(text: &[u8]) -> bool
    ensures { result ≡ are_parts (MAX_TAG_NAME_PARTS - 1) (pieces 58 text.now) }
{
    let mut rest = text;
    for _ in 0..MAX_FURTHER_PARTS {
        let Some((part, after)) = split_first(rest, b':') else {
            return is_part(rest);
        };
        if !is_part(part) {
            return false;
        }
        rest = after;
    }
    false
}

fn is_part(part: &[u8]) -> bool
    ensures { result ≡ is_part part.now }
{
    !part.is_empty() && part.len() <= MAX_NAME_BYTES && are_name_bytes(part)
}

fn are_name_bytes(part: &[u8]) -> bool
    ensures { result ≡ list_all is_name_byte part.now }
{
    part.iter().all(|byte| is_name_byte(*byte))
}
