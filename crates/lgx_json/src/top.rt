// The whole of a file.
ghost use Rattle.std.specs.Prelude.{◌≡◌, codes, Some, IfOk, IfErr, ⊤};
ghost use Rattle.spec_base.specs.declared.limits.TheConstants.{MAX_CONNECTIONS};
ghost use Rattle.spec_machine.specs.declared.limits.TheConstants.{MAX_PROGRAMS, MAX_SCOPE_TAGS, MAX_TYPES};
ghost use Rattle.spec_project.specs.Limits.{HasFewMembers, IsListOf, IsSmallProgram, IsSmallTag, IsWithinLimits};
ghost use Rattle.spec_base.specs.Causes.{IsFaultOf};
ghost use Rattle.spec_project.specs.Projects.{described_in};
ghost use Rattle.serde_json.specs.View.{view};
ghost use Rattle.spec_project.specs.Judges.{field, fields_of, keys_of, only_keys};
ghost use Rattle.spec_project.specs.Values.{list_at};
ghost use Rattle.spec_project.specs.Shape.{connections_field, controller_field, is_newest, later_fields, shape, top_fields};
ghost use Rattle.spec_project.specs.Reading.{described, described_connection, value_of};
ghost use Rattle.lgx_json.specs.Answers.{AnswersJson, Passes, Reads, fault_of, if_missing};

use crate::connections::{ConnectionObject, ValueObject};
use crate::error::ProjectError;
use crate::fields::{needed, only_keys, optional_list};
use crate::list::ListOf;
use crate::number::Whole;
use crate::programs::{ProgramObject, TAGS};
use crate::tasks::TaskObject;
use crate::text::{AnyText, NameText};
use crate::types::TypeObject;
use lgx_num::Items;
use serde_json::Value;
use spec_base::limits::{MAX_CONNECTIONS, MAX_TASKS};
use spec_language::TypeDecl;
use spec_machine::limits::{MAX_PROGRAMS, MAX_TYPES, MAX_WATCHES};
use spec_project::limits::{MAX_INITIAL_VALUES, NEWEST_SCHEMA};
use spec_project::{Described, DescribedConnection, DescribedProgram, DescribedTag, ProjectCode};
use std::alloc::Global;

const SCHEMA: Whole = Whole {
    least: 1,
    most: NEWEST_SCHEMA,
    default: 0,
};

const TYPES: ListOf<TypeObject> = ListOf {
    least: 0,
    most: MAX_TYPES,
    of: TypeObject,
};

const PROGRAMS: ListOf<ProgramObject> = ListOf {
    least: 1,
    most: MAX_PROGRAMS,
    of: ProgramObject,
};

const CONNECTIONS: ListOf<ConnectionObject> = ListOf {
    least: 0,
    most: MAX_CONNECTIONS,
    of: ConnectionObject,
};

const INITIAL_VALUES: ListOf<ValueObject> = ListOf {
    least: 0,
    most: MAX_INITIAL_VALUES,
    of: ValueObject,
};

const WATCHES: ListOf<AnyText> = ListOf {
    least: 0,
    most: MAX_WATCHES,
    of: AnyText,
};

/// That the top has no fields but its own.
#[tactic(auto, unfolding(spec_project::specs::Shape::controller_field, spec_project::specs::Shape::connections_field, spec_project::specs::Shape::later_fields))]
fn top_keys(alloc: Global, value: &Value) -> Result<(), ProjectError>
    ensures { Passes (only_keys (keys_of (top_fields (is_newest (view value.now)))) (view value.now)) result }
{
    let known = [
        "schema",
        "controller",
        "types",
        "tags",
        "programs",
        "tasks",
        "connections",
        "initial",
        "watch",
    ];
    only_keys(alloc, &known, value)
}

/// That the controller has a name.
#[tactic(auto, unfolding(spec_project::specs::Shape::controller_field))]
fn controller(alloc: Global, value: &Value) -> Result<(), ProjectError>
    ensures { Passes (field controller_field (view value.now)) result }
{
    let _name = needed(alloc, &NameText, "controller", value)?;
    Ok(())
}

#[tactic(auto, unfolding(spec_project::specs::Shape::connections_field))]
fn connections(alloc: Global, value: &Value) -> Result<Items<DescribedConnection>, ProjectError>
    ensures reads { Reads (field connections_field (view value.now)) (list_at (codes "connections") described_connection (view value.now)) result }
    ensures kept { IfOk result (λ cs. IsListOf 0 MAX_CONNECTIONS (λ c. ⊤) cs) }
{
    optional_list(alloc, &CONNECTIONS, "connections", value)
}

/// What the fields after the programs describe, with what was read before them.
#[tactic(auto, using(spec_base::proofs::Options::or_none), unfolding(spec_project::specs::Shape::later_fields, spec_project::specs::Reading::described))]
fn read_later(
    alloc: Global,
    newest: bool,
    value: &Value,
    types: Items<TypeDecl>,
    tags: Items<DescribedTag>,
    programs: Items<DescribedProgram>,
) -> Result<Described, ProjectError>
    requires newest { is_newest (view value.now) ≡ newest }
    requires types { IsListOf 0 MAX_TYPES HasFewMembers types }
    requires tags { IsListOf 0 MAX_SCOPE_TAGS IsSmallTag tags }
    requires programs { IsListOf 1 MAX_PROGRAMS IsSmallProgram programs }
    ensures reads { Reads (fields_of (later_fields newest) (view value.now)) (record (described (view value.now)) { types = types; tags = tags; programs = programs }) result }
    ensures kept { IfOk result (λ p. IsWithinLimits p) }
{
    let tasks = ListOf {
        least: 1,
        most: MAX_TASKS,
        of: TaskObject { newest },
    };
    let tasks = needed(alloc, &tasks, "tasks", value)?;
    let connections = connections(alloc, value)?;
    let initial = optional_list(alloc, &INITIAL_VALUES, "initial", value)?;
    let watch = optional_list(alloc, &WATCHES, "watch", value)?;
    Ok(Described {
        types,
        tags,
        programs,
        tasks,
        connections,
        initial,
        watch,
    })
}

/// What a file's value describes, or the first refusal of its shape.
#[tactic(auto, unfolding(spec_project::specs::Shape::shape, spec_project::specs::Reading::described))]
pub fn read_top(alloc: Global, value: &Value) -> Result<Described, ProjectError>
    ensures reads { Reads (shape (view value.now)) (described (view value.now)) result }
    ensures kept { IfOk result (λ p. IsWithinLimits p) }
{
    top_keys(alloc, value)?;
    let newest = needed(alloc, &SCHEMA, "schema", value)? == NEWEST_SCHEMA;
    controller(alloc, value)?;
    let types = optional_list(alloc, &TYPES, "types", value)?;
    let tags = optional_list(alloc, &TAGS, "tags", value)?;
    let programs = needed(alloc, &PROGRAMS, "programs", value)?;
    read_later(alloc, newest, value, types, tags, programs)
}

/// The value that the bytes are, or P1.
pub fn read_value(alloc: Global, bytes: &[u8]) -> Result<Value, ProjectError>
    ensures value { IfOk result (λ value. value_of bytes.now ≡ Some (view value)) }
    ensures fault { IfErr result (λ e. IsFaultOf (if_missing (value_of bytes.now)) (fault_of e)) }
{
    match Value::from_slice(alloc, bytes) {
        Ok(value) => Ok(value),
        Err(error) => {
            if error.is_memory() {
                return Err(ProjectError::Memory);
            }
            Err(ProjectError::here(alloc, ProjectCode::P1))
        }
    }
}

/// What a file describes, or its first refusal.
///
/// The refusals are P1, and then those of its shape, object by object: P2 to P5 and P11. It takes time in proportion to the
/// file, and nests no deeper than `serde_json` does, 127 deep.
#[tactic(auto, unfolding(spec_project::specs::Projects::described_in))]
pub fn read_described(alloc: Global, bytes: &[u8]) -> Result<Described, ProjectError>
    ensures answer { AnswersJson (described_in bytes.now) result }
    ensures kept { IfOk result (λ p. IsWithinLimits p) }
{
    let value = read_value(alloc, bytes)?;
    read_top(alloc, &value)
}
