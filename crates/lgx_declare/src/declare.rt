// The table of all tags, sealed.
ghost use Rattle.std.specs.Prelude.{◌≡◌, ◌≤◌, ◌<◌, [], ◌++◌, false, true, Some, filter, length, map, option_and_then, slice_get, IfOk, OnOk};
ghost use Rattle.spec_base.specs.Causes.{IsFaultOf};
ghost use Rattle.spec_machine.specs.declared.limits.TheConstants.{MAX_PROGRAMS, MAX_SCOPE_TAGS};
ghost use Rattle.spec_language.specs.declared.tag.Scope.{Scope as In};
ghost use Rattle.spec_project.specs.declared.fault.Inner.TheVariants.{OfTag};
ghost use Rattle.spec_project.specs.declared.fault.ProjectCode.TheVariants.{P9};
ghost use Rattle.spec_project.specs.Faults.{here_for};
ghost use Rattle.spec_project.specs.Limits.{IsListOf, IsSmallProgram, IsWithinLimits};
ghost use Rattle.spec_project.specs.Tags.{aliases_fault, at_tag, declarations, declarations_of, is_alias, scoped_tags, tags_fault, tags_in};
ghost use Rattle.lgx_declare.specs.AliasPlaces.{alias_places, is_alias_meaning};
ghost use Rattle.lgx_declare.specs.Declaring.{declaring_fault, program_tags_from, with_tags};
ghost use Rattle.lgx_json.specs.Answers.{Passes, fault_of};

use crate::tags::{declare_scope, in_tags_of};
use lgx_json::ProjectError;
use lgx_num::Memory;
use lgx_tags::{Scope, SealError, TagCode, TagTable};
use spec_project::{
    Described, DescribedMeaning, DescribedProgram, DescribedTag, Inner, ProjectCode,
};
use std::alloc::Global;

/// Declares the tags of the programs, in order: P9 at the first that is refused.
fn declare_programs(
    alloc: Global,
    table: &mut TagTable,
    programs: &[DescribedProgram],
) -> Result<(), ProjectError>
    requires unsealed { table.old.sealed ≡ false }
    requires counted { table.old.declarations.programs ≡ length programs.now }
    requires few { length table.old.declarations.entries ≤ MAX_SCOPE_TAGS }
    requires small { IsListOf 1 MAX_PROGRAMS IsSmallProgram programs.now }
    ensures fault { Passes (declaring_fault table.old.declarations (program_tags_from 0 programs.now)) result }
    ensures ok { OnOk result (table.new ≡ record { declarations = with_tags table.old.declarations (program_tags_from 0 programs.now); sealed = false }) }
{
    for (i, program) in programs.iter().enumerate() {
        let scope = Scope::Program(i as u32);
        declare_scope(alloc, table, scope, program.tags.as_slice())?;
    }
    Ok(())
}

/// Declares all tags and aliases in a table without any, the controller's first and then each program's: P9 at the first
/// that is refused.
#[tactic(auto, using(crate::proofs::Declared::all_tags))]
pub(crate) fn declare_all(
    alloc: Global,
    table: &mut TagTable,
    file: &Described,
) -> Result<(), ProjectError>
    requires limits { IsWithinLimits file.now }
    requires start { table.old ≡ record { declarations = declarations_of file.now []; sealed = false } }
    ensures fault { Passes (tags_fault file.now) result }
    ensures ok { OnOk result (table.new ≡ record { declarations = declarations file.now; sealed = false }) }
{
    declare_scope(alloc, table, Scope::Controller, file.tags.as_slice())?;
    declare_programs(alloc, table, file.programs.as_slice())?;
    Ok(())
}

/// Where an alias is: its scope, and its number among the tags there.
#[derive(Clone, Copy)]
struct AliasPlace {
    scope: Scope,
    number: usize,
}

fn is_alias(tag: &DescribedTag) -> bool
    ensures { result ≡ is_alias_meaning tag.now.meaning }
{
    matches!(tag.meaning, DescribedMeaning::AliasOf(_))
}

/// Adds the places of a scope's aliases after the others.
fn add_aliases(
    places: &mut Vec<AliasPlace>,
    scope: Scope,
    tags: &[DescribedTag],
) -> Result<(), Memory>
    ensures { OnOk result (places.new.items ≡ places.old.items ++ alias_places (tags_in scope tags.now)) }
{
    for (number, tag) in tags.iter().enumerate() {
        if is_alias(tag) {
            places.push(AliasPlace { scope, number })?;
        }
    }
    Ok(())
}

/// The places of all aliases, in order of declaration.
fn all_alias_places(alloc: Global, file: &Described) -> Result<Vec<AliasPlace>, Memory>
    requires { length file.now.programs ≤ MAX_PROGRAMS }
    ensures { IfOk result (λ places. places.items ≡ alias_places (scoped_tags file.now)) }
{
    let mut places = Vec::new(alloc);
    add_aliases(&mut places, Scope::Controller, file.tags.as_slice())?;
    for (i, program) in file.programs.as_slice().iter().enumerate() {
        let scope = Scope::Program(i as u32);
        add_aliases(&mut places, scope, program.tags.as_slice())?;
    }
    Ok(places)
}

/// P9 of the alias of a number among all.
fn alias_error(alloc: Global, file: &Described, code: TagCode, alias: u32) -> ProjectError
    requires few { length file.now.programs ≤ MAX_PROGRAMS }
    requires within { alias < length (filter is_alias (scoped_tags file.now)) }
    ensures { IsFaultOf (option_and_then (λ t. at_tag t (Some (here_for P9 (OfTag code)))) (slice_get (filter is_alias (scoped_tags file.now)) alias)) (fault_of result) }
{
    let Ok(places) = all_alias_places(alloc, file) else {
        return ProjectError::Memory;
    };
    let place = places[alias as usize];
    let error = ProjectError::here_for(alloc, ProjectCode::P9, Inner::OfTag(code));
    in_tags_of(alloc, place.scope, error.at_place(alloc, place.number))
}

/// Seals the table: P9 at the first alias whose chain has a fault or doesn't end.
#[tactic(auto, using(crate::proofs::Aliases::alias_within), unfolding(spec_project::specs::Tags::aliases_fault))]
pub(crate) fn seal_tags(
    alloc: Global,
    table: &mut TagTable,
    file: &Described,
) -> Result<(), ProjectError>
    requires few { length file.now.programs ≤ MAX_PROGRAMS }
    requires table { table.old ≡ record { declarations = declarations file.now; sealed = false } }
    ensures fault { Passes (aliases_fault file.now) result }
    ensures ok { OnOk result (table.new ≡ record { declarations = declarations file.now; sealed = true }) }
{
    match table.seal() {
        Ok(()) => Ok(()),
        Err(SealError::Memory) => Err(ProjectError::Memory),
        Err(SealError::Alias { code, alias }) => Err(alias_error(alloc, file, code, alias)),
    }
}
