// Tags and aliases of a file.
ghost use Rattle.std.specs.Prelude.{◌≡◌, codes, false, IfOk};
ghost use Rattle.serde_json.specs.View.{view};
ghost use Rattle.spec_project.specs.Limits.{IsSmallTag};
ghost use Rattle.spec_project.specs.Reading.{described_tag};
ghost use Rattle.spec_project.specs.Shape.{tag};
ghost use Rattle.spec_project.specs.Values.{has_field};
ghost use Rattle.lgx_json.specs.Answers.{Reads};

use crate::error::ProjectError;
use crate::fields::{needed, only_keys, optional};
use crate::list::Reader;
use crate::text::{AnyText, NameText};
use crate::types::DIM;
use lgx_num::Items;
use serde_json::Value;
use spec_project::{DescribedMeaning, DescribedTag};
use std::alloc::Global;

/// A tag or an alias: what has a target is an alias.
#[derive(Clone, Copy)]
pub(crate) struct TagObject;

impl Reader for TagObject {
    ghost use Rattle.spec_project.specs.Limits.{IsSmallTag};
    ghost use Rattle.spec_project.specs.Shape.{tag};
    ghost use Rattle.spec_project.specs.Reading.{described_tag};

    type Output = DescribedTag;

    ghost judge = { λ _ d. tag d };

    ghost describes = { λ _ d. described_tag d };

    ghost keeps = { λ _ x. IsSmallTag x };

    #[tactic(auto, unfolding(spec_project::specs::Shape::tag, spec_project::specs::Reading::described_tag))]
    fn read(&self, alloc: Global, value: &Value) -> Result<DescribedTag, ProjectError> {
        if value.get("alias").is_some() {
            only_keys(alloc, &["name", "alias"], value)?;
            let name = needed(alloc, &AnyText, "name", value)?;
            let target = needed(alloc, &AnyText, "alias", value)?;
            return Ok(DescribedTag {
                name,
                meaning: DescribedMeaning::AliasOf(target),
            });
        }
        read_typed(alloc, value)
    }
}

/// A tag, of what has no target.
#[tactic(auto, unfolding(spec_project::specs::Shape::tag, spec_project::specs::Reading::described_tag))]
fn read_typed(alloc: Global, value: &Value) -> Result<DescribedTag, ProjectError>
    requires { has_field (codes "alias") (view value.now) ≡ false }
    ensures reads { Reads (tag (view value.now)) (described_tag (view value.now)) result }
    ensures kept { IfOk result (λ t. IsSmallTag t) }
{
    only_keys(alloc, &["name", "type", "dim"], value)?;
    let name = needed(alloc, &AnyText, "name", value)?;
    let of = needed(alloc, &NameText, "type", value)?;
    let dim = optional(alloc, &DIM, "dim", value)?.unwrap_or(0);
    Ok(DescribedTag {
        name,
        meaning: DescribedMeaning::OfType { of, dim },
    })
}
