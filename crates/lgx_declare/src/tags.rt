// The declared tags and aliases.
ghost use Rattle.std.specs.Prelude.{◌^◌, ◌%◌, ◌-◌, ◌+◌, ◌≡◌, ◌<◌, ◌≤◌, ◌&&◌, ◌==◌, not, [], ◌∷◌, false, Some, None, length, option_map, OnOk};
ghost use Rattle.std.specs.List.{AllByRecursion as Each};
ghost use Rattle.spec_base.specs.Causes.{IsFaultOf};
ghost use Rattle.spec_base.specs.declared.limits.TheConstants.{MAX_ELEMENTS};
ghost use Rattle.spec_language.specs.TypeFaults.{is_bool_base};
ghost use Rattle.spec_language.specs.Layout.{find};
ghost use Rattle.spec_language.specs.Declarations.{alias as means_alias, tag as means_tag, declared_as};
ghost use Rattle.lgx_types.specs.Tables.{IsNumbered};
ghost use Rattle.lgx_tags.specs.Errors.{fault_of as tag_fault_of};
ghost use Rattle.lgx_tags.specs.Scopes.{IsScopeOf};
ghost use Rattle.spec_project.specs.declared.fault.Inner.TheVariants.{OfTag};
ghost use Rattle.spec_project.specs.declared.fault.ProjectCode.TheVariants.{P9};
ghost use Rattle.spec_project.specs.Faults.{here_for};
ghost use Rattle.spec_project.specs.Limits.{IsSmallTag};
ghost use Rattle.spec_project.specs.declared.described.DescribedMeaning.TheVariants.{OfType as typed};
ghost use Rattle.spec_project.specs.Tags.{data_type, entry_meaning, in_tags_of, tag_fault, tags_in};
ghost use Rattle.lgx_declare.specs.Declaring.{declaring_fault, name_refusal, sized_refusal, tag_refusal, type_refusal, with_tags};
ghost use Rattle.lgx_json.specs.Answers.{Passes, fault_of};

use lgx_json::ProjectError;
use lgx_num::Name;
use lgx_tags::{Scope, TagError, TagTable};
use spec_language::{Base, DataType, TypeCode};
use spec_project::{DescribedMeaning, DescribedTag, Inner, ProjectCode};
use std::alloc::Global;

/// P9 for what a table of tags refuses.
fn tag_error(alloc: Global, error: TagError) -> ProjectError
    ensures { IsFaultOf (option_map (λ code. here_for P9 (OfTag code)) (tag_fault_of error)) (fault_of result) }
{
    match error {
        TagError::Memory => ProjectError::Memory,
        TagError::Tag(code) => ProjectError::here_for(alloc, ProjectCode::P9, Inner::OfTag(code)),
    }
}

/// The same refusal of what is in the list of a scope's tags.
pub(crate) fn in_tags_of(alloc: Global, scope: Scope, error: ProjectError) -> ProjectError
    ensures { IsFaultOf (in_tags_of scope (fault_of error)) (fault_of result) }
{
    let error = error.in_field(alloc, "tags");
    match scope {
        Scope::Controller => error,
        Scope::Program(n) => error
            .at_place(alloc, n as usize)
            .in_field(alloc, "programs"),
    }
}

/// Declares an alias: P9 if its name is refused.
#[tactic(auto, using(spec_project::proofs::Lists::kept_few), unfolding(crate::specs::Declaring::name_refusal))]
fn declare_alias(
    alloc: Global,
    table: &mut TagTable,
    scope: Scope,
    name: &[u8],
    target: &[u8],
) -> Result<(), ProjectError>
    requires unsealed { table.old.sealed ≡ false }
    requires scope { IsScopeOf table.old.declarations.programs scope }
    requires few { length table.old.declarations.entries < 2 ^ 32 - 1 }
    ensures fault { Passes (name_refusal table.old.declarations scope name.now) result }
    ensures ok { OnOk result (table.new ≡ record { declarations = declared_as table.old.declarations scope name.now (means_alias target.now); sealed = false }) }
{
    match table.alias(scope, name, target) {
        Ok(()) => Ok(()),
        Err(error) => Err(tag_error(alloc, error)),
    }
}

/// Why a tag is refused whose type is: P9 of its name, and else of its type.
#[tactic(auto, unfolding(crate::specs::Declaring::type_refusal))]
fn refused_type(
    alloc: Global,
    table: &mut TagTable,
    scope: Scope,
    name: &[u8],
    code: TypeCode,
) -> ProjectError
    requires unsealed { table.old.sealed ≡ false }
    requires scope { IsScopeOf table.old.declarations.programs scope }
    requires few { length table.old.declarations.entries < 2 ^ 32 - 1 }
    ensures { IsFaultOf (type_refusal table.old.declarations scope name.now code) (fault_of result) }
{
    // an alias is refused exactly where its name is
    match declare_alias(alloc, table, scope, name, b"") {
        Ok(()) => ProjectError::here_for(alloc, ProjectCode::P9, Inner::OfType(code)),
        Err(error) => error,
    }
}

/// Whether it is an array of BOOLs whose length isn't a multiple of 32.
fn is_uneven(base: Base, dim: u32) -> bool
    ensures { result ≡ (is_bool_base (Some base) && not (dim % 32 == 0)) }
{
    matches!(base, Base::Bool) && dim % 32 != 0
}

/// Declares a tag whose type is there: P9 if its name is refused, its length, or the image is too long with it.
#[tactic(auto, unfolding(crate::specs::Declaring::sized_refusal))]
fn declare_sized(
    alloc: Global,
    table: &mut TagTable,
    scope: Scope,
    name: &[u8],
    of: DataType,
) -> Result<(), ProjectError>
    requires unsealed { table.old.sealed ≡ false }
    requires scope { IsScopeOf table.old.declarations.programs scope }
    requires few { length table.old.declarations.entries < 2 ^ 32 - 1 }
    requires numbered { IsNumbered (length table.old.declarations.types) of.base }
    requires short { of.dim ≤ MAX_ELEMENTS }
    ensures fault { Passes (sized_refusal table.old.declarations scope name.now of.base of.dim) result }
    ensures ok { OnOk result (table.new ≡ record { declarations = declared_as table.old.declarations scope name.now (means_tag of); sealed = false }) }
{
    if is_uneven(of.base, of.dim) {
        return Err(refused_type(alloc, table, scope, name, TypeCode::Y4));
    }
    match table.declare(scope, name, of) {
        Ok(()) => Ok(()),
        Err(error) => Err(tag_error(alloc, error)),
    }
}

/// Declares a tag: P9 if its name, its type or its length is refused, or the image is too long with it.
#[tactic(auto, using(crate::proofs::Declared::found_refused, crate::proofs::Declared::missing_refused, crate::proofs::Declared::numbered_found))]
fn declare_typed(
    alloc: Global,
    table: &mut TagTable,
    scope: Scope,
    name: &[u8],
    of: &Name,
    dim: u32,
) -> Result<(), ProjectError>
    requires unsealed { table.old.sealed ≡ false }
    requires scope { IsScopeOf table.old.declarations.programs scope }
    requires few { length table.old.declarations.entries < 2 ^ 32 - 1 }
    requires short { dim ≤ MAX_ELEMENTS }
    ensures fault { Passes (tag_refusal table.old.declarations scope (record { name = name.now; meaning = typed of.now dim })) result }
    ensures ok { OnOk result (table.new ≡ record { declarations = declared_as table.old.declarations scope name.now (means_tag (data_type table.old.declarations.types of.now dim)); sealed = false }) }
{
    match table.types().find(of) {
        None => Err(refused_type(alloc, table, scope, name, TypeCode::Y1)),
        Some(base) => declare_sized(alloc, table, scope, name, DataType { base, dim }),
    }
}

/// Declares a tag or an alias: P9 if it is refused.
#[tactic(auto, using(crate::proofs::Declared::alias_refused))]
fn declare_tag(
    alloc: Global,
    table: &mut TagTable,
    scope: Scope,
    tag: &DescribedTag,
) -> Result<(), ProjectError>
    requires unsealed { table.old.sealed ≡ false }
    requires scope { IsScopeOf table.old.declarations.programs scope }
    requires few { length table.old.declarations.entries < 2 ^ 32 - 1 }
    requires small { IsSmallTag tag.now }
    ensures fault { Passes (tag_refusal table.old.declarations scope tag.now) result }
    ensures ok { OnOk result (table.new ≡ record { declarations = declared_as table.old.declarations scope tag.now.name (entry_meaning table.old.declarations.types tag.now.meaning); sealed = false }) }
{
    let name = tag.name.as_slice();
    match &tag.meaning {
        DescribedMeaning::OfType { of, dim } => declare_typed(alloc, table, scope, name, of, *dim),
        DescribedMeaning::AliasOf(target) => {
            declare_alias(alloc, table, scope, name, target.as_slice())
        }
    }
}

/// Declares the tag of a number in its scope: P9 at that place if it is refused.
#[tactic(auto, unfolding(crate::specs::Declaring::tag_refusal, crate::specs::Declaring::with_tags))]
fn declare_at(
    alloc: Global,
    table: &mut TagTable,
    scope: Scope,
    place: usize,
    tag: &DescribedTag,
) -> Result<(), ProjectError>
    requires unsealed { table.old.sealed ≡ false }
    requires scope { IsScopeOf table.old.declarations.programs scope }
    requires few { length table.old.declarations.entries < 2 ^ 32 - 1 }
    requires small { IsSmallTag tag.now }
    ensures fault { Passes (tag_fault table.old.declarations (record { scope = scope; number = place; tag = tag.now })) result }
    ensures ok { OnOk result (table.new ≡ record { declarations = with_tags table.old.declarations (record { scope = scope; number = place; tag = tag.now } ∷ []); sealed = false }) }
{
    match declare_tag(alloc, table, scope, tag) {
        Ok(()) => Ok(()),
        Err(error) => Err(in_tags_of(alloc, scope, error.at_place(alloc, place))),
    }
}

/// Declares the tags of a scope, in order: P9 at the first that is refused.
pub(crate) fn declare_scope(
    alloc: Global,
    table: &mut TagTable,
    scope: Scope,
    tags: &[DescribedTag],
) -> Result<(), ProjectError>
    requires unsealed { table.old.sealed ≡ false }
    requires scope { IsScopeOf table.old.declarations.programs scope }
    requires few { length table.old.declarations.entries + length tags.now < 2 ^ 32 - 1 }
    requires small { Each IsSmallTag tags.now }
    ensures fault { Passes (declaring_fault table.old.declarations (tags_in scope tags.now)) result }
    ensures ok { OnOk result (table.new ≡ record { declarations = with_tags table.old.declarations (tags_in scope tags.now); sealed = false }) }
{
    for (i, tag) in tags.iter().enumerate() {
        declare_at(alloc, table, scope, i, tag)?;
    }
    Ok(())
}
