// Fields of an object.
ghost use Rattle.std.specs.Prelude.{◌≡◌, map, option_map, string_bytes, IfOk, IfSome};
ghost use Rattle.spec_project.specs.Limits.{IsListOf};
ghost use Rattle.std.specs.List.{list_all, list_any};
ghost use Rattle.std.specs.Str.{bytes_eq};
ghost use Rattle.std.specs.BTreeMap.{keys};
ghost use Rattle.serde_json.specs.Find.{get};
ghost use Rattle.serde_json.specs.View.{view, members_view};
ghost use Rattle.spec_project.specs.Judges.{field, needed, optional, only_keys, list as list_judge};
ghost use Rattle.spec_project.specs.Values.{list_at};
ghost use Rattle.lgx_json.specs.Answers.{Reads, Passes, ReadsField};

use crate::error::ProjectError;
use crate::list::{ListOf, Reader};
use lgx_num::Items;
use serde_json::{Map, Value};
use spec_project::ProjectCode;
use std::alloc::Global;

/// What is in a field that an object must have.
#[tactic(auto, unfolding(spec_project::specs::Judges::field))]
pub(crate) fn needed<R: Reader>(
    alloc: Global,
    reader: &R,
    key: &str,
    object: &Value,
) -> Result<R::Output, ProjectError>
    ensures reads { ReadsField (field (needed key.now (R.judge reader.now)) (view object.now)) (option_map (R.describes reader.now) (get key.now (view object.now))) result }
    ensures kept { IfOk result (λ x. R.keeps reader.now x) }
{
    let Some(value) = object.get(key) else {
        return Err(ProjectError::here(alloc, ProjectCode::P2).in_field(alloc, key));
    };
    match reader.read(alloc, value) {
        Ok(read) => Ok(read),
        Err(error) => Err(error.in_field(alloc, key)),
    }
}

/// What is in a field that an object may have.
#[tactic(auto, unfolding(spec_project::specs::Judges::field))]
pub(crate) fn optional<R: Reader>(
    alloc: Global,
    reader: &R,
    key: &str,
    object: &Value,
) -> Result<Option<R::Output>, ProjectError>
    ensures reads { Reads (field (optional key.now (R.judge reader.now)) (view object.now)) (option_map (R.describes reader.now) (get key.now (view object.now))) result }
    ensures kept { IfOk result (λ o. IfSome o (λ x. R.keeps reader.now x)) }
{
    let Some(value) = object.get(key) else {
        return Ok(None);
    };
    match reader.read(alloc, value) {
        Ok(read) => Ok(Some(read)),
        Err(error) => Err(error.in_field(alloc, key)),
    }
}

/// The list in a field that an object may have; without the field it is empty.
pub(crate) fn optional_list<R: Reader>(
    alloc: Global,
    list: &ListOf<R>,
    key: &str,
    object: &Value,
) -> Result<Items<R::Output>, ProjectError>
    requires { list.now.least ≡ 0 }
    ensures reads { Reads (field (optional key.now (list_judge list.now.least list.now.most (R.judge list.now.of))) (view object.now)) (list_at key.now (R.describes list.now.of) (view object.now)) result }
    ensures kept { IfOk result (λ xs. IsListOf 0 list.now.most (R.keeps list.now.of) xs) }
{
    match optional(alloc, list, key, object)? {
        Some(items) => Ok(items),
        None => Ok(Items::of(Vec::new(alloc))),
    }
}

/// Whether an object may have a field of this key.
fn is_known(known: &[&str], key: &str) -> bool
    ensures { result ≡ list_any (λ k. bytes_eq key.now k.now) known.now }
{
    known.iter().any(|k| key == *k)
}

/// Whether an object has no fields but these.
fn are_known(known: &[&str], members: &Map<String, Value>) -> bool
    ensures { result ≡ list_all (λ key. list_any (λ k. bytes_eq (string_bytes key) k.now) known.now) (keys members.now) }
{
    members.keys().all(|key| is_known(known, key.as_str()))
}

/// That a value is an object, and has no fields but these.
#[tactic(auto, unfolding(spec_project::specs::Judges::only_keys))]
pub(crate) fn only_keys(alloc: Global, known: &[&str], value: &Value) -> Result<(), ProjectError>
    ensures { Passes (only_keys (map (λ k. k.now) known.now) (view value.now)) result }
{
    let Some(members) = value.as_object() else {
        return Err(ProjectError::here(alloc, ProjectCode::P4));
    };
    if !are_known(known, members) {
        return Err(ProjectError::here(alloc, ProjectCode::P3));
    }
    Ok(())
}
