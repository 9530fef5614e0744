// Programs and routines of a file.
use crate::error::ProjectError;
use crate::fields::{needed, only_keys, optional_list};
use crate::list::{ListOf, Reader};
use crate::tags::TagObject;
use crate::text::{NameText, RungText};
use lgx_num::Items;
use serde_json::Value;
use spec_machine::limits::{MAX_ROUTINES, MAX_RUNGS, MAX_SCOPE_TAGS};
use spec_project::{DescribedProgram, DescribedRoutine};
use std::alloc::Global;

/// The tags of a scope.
pub(crate) const TAGS: ListOf<TagObject> = ListOf {
    least: 0,
    most: MAX_SCOPE_TAGS,
    of: TagObject,
};

const RUNGS: ListOf<RungText> = ListOf {
    least: 0,
    most: MAX_RUNGS,
    of: RungText,
};

const ROUTINES: ListOf<RoutineObject> = ListOf {
    least: 1,
    most: MAX_ROUTINES,
    of: RoutineObject,
};

/// How a routine is read.
#[derive(Clone, Copy)]
pub(crate) struct RoutineObject;

impl Reader for RoutineObject {
    ghost use Rattle.spec_project.specs.Limits.{HasFewRungs};
    ghost use Rattle.spec_project.specs.Shape.{routine};
    ghost use Rattle.spec_project.specs.Reading.{described_routine};

    type Output = DescribedRoutine;

    ghost judge = { λ _ d. routine d };

    ghost describes = { λ _ d. described_routine d };

    ghost keeps = { λ _ x. HasFewRungs x };

    #[tactic(auto, unfolding(spec_project::specs::Shape::routine, spec_project::specs::Reading::described_routine))]
    fn read(&self, alloc: Global, value: &Value) -> Result<DescribedRoutine, ProjectError> {
        only_keys(alloc, &["name", "rungs"], value)?;
        let name = needed(alloc, &NameText, "name", value)?;
        let rungs = needed(alloc, &RUNGS, "rungs", value)?;
        Ok(DescribedRoutine { name, rungs })
    }
}

/// How a program is read.
#[derive(Clone, Copy)]
pub(crate) struct ProgramObject;

impl Reader for ProgramObject {
    ghost use Rattle.spec_project.specs.Limits.{IsSmallProgram};
    ghost use Rattle.spec_project.specs.Shape.{program};
    ghost use Rattle.spec_project.specs.Reading.{described_program};

    type Output = DescribedProgram;

    ghost judge = { λ _ d. program d };

    ghost describes = { λ _ d. described_program d };

    ghost keeps = { λ _ x. IsSmallProgram x };

    #[tactic(auto, unfolding(spec_project::specs::Shape::program, spec_project::specs::Reading::described_program))]
    fn read(&self, alloc: Global, value: &Value) -> Result<DescribedProgram, ProjectError> {
        only_keys(alloc, &["name", "main", "tags", "routines"], value)?;
        let name = needed(alloc, &NameText, "name", value)?;
        let main = needed(alloc, &NameText, "main", value)?;
        let tags = optional_list(alloc, &TAGS, "tags", value)?;
        let routines = needed(alloc, &ROUTINES, "routines", value)?;
        Ok(DescribedProgram {
            name,
            main,
            tags,
            routines,
        })
    }
}
