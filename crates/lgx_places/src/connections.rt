// Connections of controller tags.
ghost use Rattle.std.specs.Prelude.{◌≡◌, ◌≤◌, true, length, map, option_and_then, IfOk, Ok};
ghost use Rattle.spec_language.specs.declared.tag.Scope.TheVariants.{Controller};
ghost use Rattle.spec_language.specs.Layout.{single};
ghost use Rattle.spec_language.specs.Resolution.{found_fixed};
ghost use Rattle.spec_base.specs.declared.limits.TheConstants.{MAX_TASKS};
ghost use Rattle.spec_machine.specs.declared.limits.TheConstants.{MAX_SCOPE_TAGS};
ghost use Rattle.spec_project.specs.Faults.{first_at};
ghost use Rattle.spec_project.specs.Limits.{IsWithinLimits};
ghost use Rattle.spec_project.specs.Places.{connection_fault, connection_of, connections_fault, event_named, found_refusal, is_short, may_connect, trigger_refusal};
ghost use Rattle.spec_project.specs.Tags.{declarations};
ghost use Rattle.lgx_types.specs.Tables.{HasSize};
ghost use Rattle.spec_language.specs.TagSpans.{spans_of};
ghost use Rattle.lgx_json.specs.Answers.{Passes, Reads};
ghost use Rattle.lgx_places.specs.WholeTags.{connected_among, is_connected, tag_types};

use crate::named::named_from;
use crate::tasks::event_named;
use crate::whole::{is_one_of, tag_types};
use lgx_edit::ConnDefs;
use lgx_json::ProjectError;
use lgx_num::Items;
use lgx_tags::{Found, Scope, TagTable};
use spec_base::limits::MAX_CONNECTION_WORDS;
use spec_language::{Base, DataType};
use spec_project::{Described, DescribedConnection, ProjectCode};
use spec_tables::ConnDef;
use std::alloc::Global;

/// Whether a tag of the type may be connected: a DINT, an array of DINTs, or a declared structure (profile).
fn may_connect(of: DataType) -> bool
    ensures { result ≡ may_connect of }
{
    match of.base {
        Base::Dint => true,
        Base::User(_) => of.dim == 0,
        _ => false,
    }
}

/// Whether a type that may be connected has no more words than a connection may have.
fn is_short(tags: &TagTable, of: DataType) -> bool
    requires may { may_connect of ≡ true }
    requires sized { HasSize tags.now.declarations.types (single of.base) }
    ensures { result ≡ is_short tags.now.declarations of }
{
    if of.dim > MAX_CONNECTION_WORDS {
        return false;
    }
    tags.types().size_of(of) <= 4 * MAX_CONNECTION_WORDS
}

/// Whether what is found may be connected, where the controller's tags are of these types: it is the whole of one of them,
/// and of a type that may be connected.
fn is_connected(tags: &TagTable, types: &[DataType], found: &Found) -> bool
    requires sealed { tags.now.sealed ≡ true }
    requires few { length types.now ≤ MAX_SCOPE_TAGS }
    requires sized { HasSize tags.now.declarations.types (single found.now.of.base) }
    ensures { result ≡ is_connected tags.now.declarations types.now found.now }
{
    if !may_connect(found.of) {
        return false;
    }
    if !is_short(tags, found.of) {
        return false;
    }
    is_one_of(tags, types, found.at, found.of)
}

/// What a connection is of: P9 if its text names nothing, and P5 if that may not be connected.
fn connected(
    alloc: Global,
    tags: &TagTable,
    types: &[DataType],
    text: &[u8],
) -> Result<Found, ProjectError>
    requires sealed { tags.now.sealed ≡ true }
    requires few { length types.now ≤ MAX_SCOPE_TAGS }
    ensures fault { Passes (found_refusal (connected_among tags.now.declarations types.now) (found_fixed tags.now.declarations Controller text.now)) result }
    ensures found { IfOk result (λ f. found_fixed tags.now.declarations Controller text.now ≡ Ok f) }
    ensures sized { IfOk result (λ f. HasSize tags.now.declarations.types f.of) }
{
    let found = named_from(alloc, tags, Scope::Controller, text)?;
    if !is_connected(tags, types, &found) {
        return Err(ProjectError::here(alloc, ProjectCode::P5));
    }
    Ok(found)
}

/// The event task that a connection triggers, if it has a trigger: P5 if there is no such task, or the connection is an
/// output.
fn trigger_of(
    alloc: Global,
    file: &Described,
    connection: &DescribedConnection,
) -> Result<Option<u32>, ProjectError>
    requires { length file.now.tasks ≤ MAX_TASKS }
    ensures { Reads (trigger_refusal file.now connection.now connection.now.trigger) (option_and_then (event_named file.now) connection.now.trigger) result }
{
    let Some(name) = &connection.trigger else {
        return Ok(None);
    };
    match event_named(file, name) {
        Some(task) if !connection.output => Ok(Some(task)),
        _ => Err(ProjectError::here(alloc, ProjectCode::P5)),
    }
}

/// A connection, where the controller's tags are of these types: P9 or P5 of its tag, and then P5 of its trigger.
fn read_connection(
    alloc: Global,
    tags: &TagTable,
    types: &[DataType],
    file: &Described,
    connection: &DescribedConnection,
) -> Result<ConnDef, ProjectError>
    requires limits { length file.now.tasks ≤ MAX_TASKS }
    requires few { length types.now ≤ MAX_SCOPE_TAGS }
    requires tags { tags.now ≡ record { declarations = declarations file.now; sealed = true } }
    requires types { types.now ≡ tag_types file.now.types file.now.tags }
    ensures { Reads (connection_fault file.now connection.now) (connection_of file.now connection.now) result }
{
    let (at, of) = match connected(alloc, tags, types, connection.tag.as_slice()) {
        Ok(found) => (found.at, found.of),
        Err(error) => return Err(error.in_field(alloc, "tag")),
    };
    match trigger_of(alloc, file, connection) {
        Ok(trigger) => Ok(ConnDef {
            name: connection.name.copied(),
            output: connection.output,
            byte: at / 8,
            words: tags.types().size_of(of) / 4,
            trigger,
        }),
        Err(error) => Err(error.in_field(alloc, "trigger")),
    }
}

/// Connections in order, where the controller's tags are of these types: P9 or P5 of the first that is refused.
fn read_each(
    alloc: Global,
    tags: &TagTable,
    types: &[DataType],
    file: &Described,
    connections: &[DescribedConnection],
) -> Result<ConnDefs, ProjectError>
    requires limits { length file.now.tasks ≤ MAX_TASKS }
    requires few { length types.now ≤ MAX_SCOPE_TAGS }
    requires tags { tags.now ≡ record { declarations = declarations file.now; sealed = true } }
    requires types { types.now ≡ tag_types file.now.types file.now.tags }
    ensures { Reads (first_at (connection_fault file.now) connections.now) (map (connection_of file.now) connections.now) result }
{
    let mut made = Vec::with_capacity(alloc, connections.len())?;
    for (i, connection) in connections.iter().enumerate() {
        match read_connection(alloc, tags, types, file, connection) {
            Ok(one) => made.push(one)?,
            Err(error) => return Err(error.at_place(alloc, i)),
        }
    }
    Ok(Items::of(made))
}

/// The connections of a file, in order: P9 or P5 of the first that is refused. It takes a time in proportion to the
/// controller's tags for each connection.
#[tactic(auto, unfolding(spec_project::specs::Places::connections_fault))]
pub fn read_connections(
    alloc: Global,
    tags: &TagTable,
    file: &Described,
) -> Result<ConnDefs, ProjectError>
    requires limits { IsWithinLimits file.now }
    requires tags { tags.now ≡ record { declarations = declarations file.now; sealed = true } }
    ensures { Reads (connections_fault file.now) (map (connection_of file.now) file.now.connections) result }
{
    let types = tag_types(alloc, tags.types(), file.tags.as_slice())?;
    match read_each(alloc, tags, &types, file, file.connections.as_slice()) {
        Ok(made) => Ok(made),
        Err(error) => Err(error.in_field(alloc, "connections")),
    }
}
