// Declared types.
use crate::error::ProjectError;
use crate::fields::{needed, only_keys, optional};
use crate::list::{ListOf, Reader};
use crate::number::Whole;
use crate::text::NameText;
use lgx_num::Items;
use serde_json::Value;
use spec_base::limits::MAX_ELEMENTS;
use spec_language::{MemberDecl, TypeDecl};
use spec_machine::limits::MAX_MEMBERS;
use std::alloc::Global;

/// The elements of an array; what is no array has no such field.
pub(crate) const DIM: Whole = Whole {
    least: 1,
    most: MAX_ELEMENTS,
    default: 0,
};

/// A member of a structure.
#[derive(Clone, Copy)]
pub(crate) struct MemberObject;

impl Reader for MemberObject {
    ghost use Rattle.spec_project.specs.Limits.{HasSmallDim};
    ghost use Rattle.spec_project.specs.Shape.{member};
    ghost use Rattle.spec_project.specs.Reading.{member_decl};

    type Output = MemberDecl;

    ghost judge = { λ _ d. member d };

    ghost describes = { λ _ d. member_decl d };

    ghost keeps = { λ _ x. HasSmallDim x };

    #[tactic(auto, unfolding(spec_project::specs::Shape::member, spec_project::specs::Reading::member_decl))]
    fn read(&self, alloc: Global, value: &Value) -> Result<MemberDecl, ProjectError> {
        only_keys(alloc, &["name", "type", "dim"], value)?;
        let name = needed(alloc, &NameText, "name", value)?;
        let of = needed(alloc, &NameText, "type", value)?;
        let dim = optional(alloc, &DIM, "dim", value)?.unwrap_or(0);
        Ok(MemberDecl { name, of, dim })
    }
}

/// How a structure is read.
#[derive(Clone, Copy)]
pub(crate) struct TypeObject;

impl Reader for TypeObject {
    ghost use Rattle.spec_project.specs.Limits.{HasFewMembers};
    ghost use Rattle.spec_project.specs.Shape.{structure};
    ghost use Rattle.spec_project.specs.Reading.{type_decl};

    type Output = TypeDecl;

    ghost judge = { λ _ d. structure d };

    ghost describes = { λ _ d. type_decl d };

    ghost keeps = { λ _ x. HasFewMembers x };

    #[tactic(auto, unfolding(spec_project::specs::Shape::structure, spec_project::specs::Reading::type_decl))]
    fn read(&self, alloc: Global, value: &Value) -> Result<TypeDecl, ProjectError> {
        only_keys(alloc, &["name", "members"], value)?;
        let name = needed(alloc, &NameText, "name", value)?;
        let members = ListOf {
            least: 1,
            most: MAX_MEMBERS,
            of: MemberObject,
        };
        let members = needed(alloc, &members, "members", value)?;
        Ok(TypeDecl { name, members })
    }
}
