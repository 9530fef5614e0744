// A project's file carried to the newest schema.
ghost use Rattle.std.specs.Prelude.{◌≡◌, ◌≤◌, Some, Ok, IfOk, IfErr, OnOk, IsOk, false};
ghost use Rattle.serde_json.specs.Data.{depth};
ghost use Rattle.serde_json.specs.Read.{max_depth};
ghost use Rattle.serde_json.specs.View.{view};
ghost use Rattle.serde_json.specs.Written.{has_float};
ghost use Rattle.spec_project.specs.Projects.{project_of};
ghost use Rattle.spec_project.specs.Reading.{value_of};
ghost use Rattle.lgx_json.specs.declared.error.ProjectError.TheVariants.{Memory};
ghost use Rattle.lgx_json.specs.Answers.{IsRefusedWith, fault_of};
ghost use Rattle.lgx_project.specs.Migrated.{line_of, migrated, with_newest_schema};

use crate::project::read_project;
use lgx_json::{ProjectError, read_value};
use serde_json::Value;
use spec_project::limits::NEWEST_SCHEMA;
use std::alloc::Global;

/// That the bytes are a project's file.
fn must_be_project(alloc: Global, bytes: &[u8]) -> Result<(), ProjectError>
    ensures project { OnOk result (IsOk (project_of bytes.now)) }
    ensures fault { IfErr result (λ e. IsRefusedWith (project_of bytes.now) (fault_of e)) }
{
    let _project = read_project(alloc, bytes)?;
    Ok(())
}

/// The same value, with the newest schema if it is an object.
fn with_newest_schema(alloc: Global, value: Value) -> Result<Value, ProjectError>
    ensures value { IfOk result (λ changed. view changed ≡ with_newest_schema (view value)) }
    ensures memory { IfErr result (λ e. e ≡ Memory) }
{
    match value {
        Value::Object(mut members) => {
            let key = String::from_str(alloc, "schema")?;
            members.insert(key, Value::from(NEWEST_SCHEMA))?;
            Ok(Value::Object(members))
        }
        other => Ok(other),
    }
}

/// The value's text and a line feed.
fn line_of(alloc: Global, value: &Value) -> Result<Vec<u8>, ProjectError>
    requires { depth (view value.now) ≤ max_depth }
    ensures text { IfOk result (λ text. has_float (view value.now) ≡ false → text.items ≡ line_of (view value.now)) }
    ensures reads_back { IfOk result (λ text. value_of text.items ≡ Some (view value.now)) }
    ensures memory { IfErr result (λ e. e ≡ Memory) }
{
    let mut text = value.to_vec(alloc)?;
    text.push(b'\n')?;
    Ok(text)
}

/// The line of a project's file.
#[tactic(auto, using(crate::proofs::Lines::only_memory))]
fn project_line(alloc: Global, bytes: &[u8]) -> Result<Vec<u8>, ProjectError>
    requires { IsOk (project_of bytes.now) }
    ensures line { IfOk result (λ text. migrated bytes.now ≡ Ok text.items) }
    ensures same_project { IfOk result (λ text. project_of text.items ≡ project_of bytes.now) }
    ensures memory { IfErr result (λ e. e ≡ Memory) }
{
    let value = read_value(alloc, bytes)?;
    let changed = with_newest_schema(alloc, value)?;
    line_of(alloc, &changed)
}

/// A project's file in the newest form, on one line.
///
/// It is the JSON text of what was read, with no space between its parts, each object's keys in the order of their bytes, and a
/// line feed at its end. The field `schema` alone is another one. What is refused is what is no project, and for the same cause.
/// A file of the newest form is put into this layout too. It takes time and memory in proportion to the file.
#[tactic(auto, using(crate::proofs::Lines::same_refusal))]
pub fn migrate(alloc: Global, bytes: &[u8]) -> Result<Vec<u8>, ProjectError>
    ensures line { IfOk result (λ text. migrated bytes.now ≡ Ok text.items) }
    ensures same_project { IfOk result (λ text. project_of text.items ≡ project_of bytes.now) }
    ensures fault { IfErr result (λ e. IsRefusedWith (migrated bytes.now) (fault_of e)) }
{
    must_be_project(alloc, bytes)?;
    project_line(alloc, bytes)
}
