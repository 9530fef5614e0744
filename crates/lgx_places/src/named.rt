// What a text of the file names.
ghost use Rattle.std.specs.Prelude.{◌≡◌, ◌≤◌, [], false, true, length, IfNone, IfOk, IfSome, Some};
ghost use Rattle.spec_language.specs.Declarations.{bytes};
ghost use Rattle.spec_language.specs.Layout.{single};
ghost use Rattle.spec_language.specs.Resolution.{found_fixed};
ghost use Rattle.spec_language.specs.ResolutionLaws.{LiesIn};
ghost use Rattle.spec_machine.specs.declared.limits.TheConstants.{MAX_PROGRAMS};
ghost use Rattle.spec_project.specs.declared.fault.Inner.TheVariants.{OfTag};
ghost use Rattle.spec_project.specs.declared.fault.ProjectCode.TheVariants.{P9};
ghost use Rattle.spec_project.specs.Faults.{here_for};
ghost use Rattle.spec_project.specs.Places.{found_in, has_scope};
ghost use Rattle.spec_project.specs.Schedules.{program_named};
ghost use Rattle.spec_project.specs.Tags.{declarations};
ghost use Rattle.lgx_types.specs.Tables.{HasSize};
ghost use Rattle.lgx_json.specs.Answers.{fault_of};
ghost use Rattle.lgx_places.specs.Naming.{IsScopedAs, Names};

use lgx_json::ProjectError;
use lgx_num::{is_name, same, split_first};
use lgx_tags::{Found, Scope, TagCode, TagError, TagTable};
use spec_project::{Described, Inner, ProjectCode};
use std::alloc::Global;

/// P9 for a text that names nothing.
fn unnamed(alloc: Global, code: TagCode) -> ProjectError
    ensures { fault_of result ≡ Some (here_for P9 (OfTag code)) }
{
    ProjectError::here_for(alloc, ProjectCode::P9, Inner::OfTag(code))
}

/// What a text names, seen from a scope, where numbers alone are subscripts: P9 if it names nothing.
pub(crate) fn named_from(
    alloc: Global,
    tags: &TagTable,
    scope: Scope,
    text: &[u8],
) -> Result<Found, ProjectError>
    requires { tags.now.sealed ≡ true }
    ensures named { Names (found_fixed tags.now.declarations scope text.now) result }
    ensures lies { IfOk result (λ f. LiesIn tags.now.declarations.types (bytes tags.now.declarations) f) }
    ensures sized { IfOk result (λ f. HasSize tags.now.declarations.types (single f.of.base)) }
    ensures fixed { IfOk result (λ f. f.steps ≡ []) }
{
    match tags.resolve_fixed(alloc, scope, text) {
        Ok(found) => Ok(found),
        Err(TagError::Tag(code)) => Err(unnamed(alloc, code)),
        Err(TagError::Memory) => Err(ProjectError::Memory),
    }
}

/// The number of the first program of a name; case doesn't matter.
fn program_named(file: &Described, name: &[u8]) -> Option<u32>
    requires { length file.now.programs ≤ MAX_PROGRAMS }
    ensures { result ≡ program_named file.now name.now }
{
    let programs = file.programs.as_slice();
    for (n, program) in programs.iter().enumerate() {
        if same(program.name.bytes(), name) {
            return Some(n as u32);
        }
    }
    None
}

/// The name of the program that a text is seen from, and the rest of the text: what comes before and after the first dot behind
/// `Program:`. None of a text without the prefix, without a dot after it, or with something else than a name between.
fn scoped(text: &[u8]) -> Option<(&[u8], &[u8])>
    ensures some { IfSome result (λ r. IsScopedAs text.now r.0.now r.1.now) }
    ensures none { IfNone result (has_scope text.now ≡ false) }
{
    let rest = text.strip_prefix(b"Program:")?;
    let (name, after) = split_first(rest, b'.')?;
    if is_name(name) {
        return Some((name, after));
    }
    None
}

/// What a text names: the controller's tags alone are seen, but from a program if its name comes before the text. P9 if there is no
/// such program, or it names nothing.
pub(crate) fn named(
    alloc: Global,
    tags: &TagTable,
    file: &Described,
    text: &[u8],
) -> Result<Found, ProjectError>
    requires few { length file.now.programs ≤ MAX_PROGRAMS }
    requires tags { tags.now ≡ record { declarations = declarations file.now; sealed = true } }
    ensures named { Names (found_in file.now text.now) result }
    ensures lies { IfOk result (λ f. LiesIn tags.now.declarations.types (bytes tags.now.declarations) f) }
    ensures fixed { IfOk result (λ f. f.steps ≡ []) }
{
    let Some((name, rest)) = scoped(text) else {
        return named_from(alloc, tags, Scope::Controller, text);
    };
    match program_named(file, name) {
        Some(program) => named_from(alloc, tags, Scope::Program(program), rest),
        None => Err(unnamed(alloc, TagCode::G3)),
    }
}
