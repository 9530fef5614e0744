// Connections and initial values of a file.
ghost use Rattle.std.specs.Prelude.{codes, option_map};
ghost use Rattle.serde_json.specs.Find.{get};
ghost use Rattle.serde_json.specs.View.{view};
ghost use Rattle.spec_project.specs.Judges.{field, keys_of, only_keys};
ghost use Rattle.spec_project.specs.Shape.{connection_fields, direction_field};
ghost use Rattle.spec_project.specs.Reading.{is_out};
ghost use Rattle.lgx_json.specs.Answers.{Passes, ReadsField};

use crate::error::ProjectError;
use crate::fields::{needed, only_keys, optional};
use crate::list::Reader;
use crate::number::Dint;
use crate::text::{AnyText, NameText};
use lgx_num::Items;
use serde_json::Value;
use spec_project::{DescribedConnection, DescribedValue, ProjectCode};
use std::alloc::Global;

/// Which way a connection goes: whether it is an output.
#[derive(Clone, Copy)]
struct Direction;

impl Reader for Direction {
    ghost use Rattle.std.specs.Prelude.{⊤};
    ghost use Rattle.spec_project.specs.Judges.{one_of};
    ghost use Rattle.spec_project.specs.Shape.{directions};
    ghost use Rattle.spec_project.specs.Reading.{is_out};

    type Output = bool;

    ghost judge = { λ _ d. one_of directions d };

    ghost describes = { λ _ d. is_out d };

    ghost keeps = { λ _ _. ⊤ };

    fn read(&self, alloc: Global, value: &Value) -> Result<bool, ProjectError> {
        let Some(text) = value.as_str() else {
            return Err(ProjectError::here(alloc, ProjectCode::P4));
        };
        if text == "in" || text == "out" {
            return Ok(text == "out");
        }
        Err(ProjectError::here(alloc, ProjectCode::P5))
    }
}

#[tactic(auto, unfolding(spec_project::specs::Shape::direction_field))]
fn connection_keys(alloc: Global, value: &Value) -> Result<(), ProjectError>
    ensures { Passes (only_keys (keys_of connection_fields) (view value.now)) result }
{
    only_keys(alloc, &["name", "tag", "direction", "trigger"], value)
}

#[tactic(auto, unfolding(spec_project::specs::Shape::direction_field))]
fn direction_of(alloc: Global, value: &Value) -> Result<bool, ProjectError>
    ensures { ReadsField (field direction_field (view value.now)) (option_map is_out (get (codes "direction") (view value.now))) result }
{
    needed(alloc, &Direction, "direction", value)
}

/// How a connection is read.
#[derive(Clone, Copy)]
pub(crate) struct ConnectionObject;

impl Reader for ConnectionObject {
    ghost use Rattle.std.specs.Prelude.{⊤};
    ghost use Rattle.spec_project.specs.Shape.{connection};
    ghost use Rattle.spec_project.specs.Reading.{described_connection};

    type Output = DescribedConnection;

    ghost judge = { λ _ d. connection d };

    ghost describes = { λ _ d. described_connection d };

    ghost keeps = { λ _ _. ⊤ };

    #[tactic(auto, unfolding(spec_project::specs::Shape::connection, spec_project::specs::Reading::described_connection))]
    fn read(&self, alloc: Global, value: &Value) -> Result<DescribedConnection, ProjectError> {
        connection_keys(alloc, value)?;
        let name = needed(alloc, &NameText, "name", value)?;
        let tag = needed(alloc, &AnyText, "tag", value)?;
        let output = direction_of(alloc, value)?;
        let trigger = optional(alloc, &NameText, "trigger", value)?;
        Ok(DescribedConnection {
            name,
            tag,
            output,
            trigger,
        })
    }
}

/// How an initial value is read.
#[derive(Clone, Copy)]
pub(crate) struct ValueObject;

impl Reader for ValueObject {
    ghost use Rattle.std.specs.Prelude.{⊤};
    ghost use Rattle.spec_project.specs.Shape.{value};
    ghost use Rattle.spec_project.specs.Reading.{described_value};

    type Output = DescribedValue;

    ghost judge = { λ _ d. value d };

    ghost describes = { λ _ d. described_value d };

    ghost keeps = { λ _ _. ⊤ };

    #[tactic(auto, unfolding(spec_project::specs::Shape::value, spec_project::specs::Reading::described_value))]
    fn read(&self, alloc: Global, value: &Value) -> Result<DescribedValue, ProjectError> {
        only_keys(alloc, &["tag", "value"], value)?;
        let tag = needed(alloc, &AnyText, "tag", value)?;
        let value = needed(alloc, &Dint, "value", value)?;
        Ok(DescribedValue { tag, value })
    }
}
