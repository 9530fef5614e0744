// The rungs of routines, read and checked.
ghost use Rattle.std.specs.Prelude.{◌^◌, ◌≡◌, ◌<◌, true, length, map};
ghost use Rattle.std.specs.List.{AllByRecursion as Each};
ghost use Rattle.std.specs.Result.{result_ok};
ghost use Rattle.lgx_rung.specs.Tokens.{read_rung as reading};
ghost use Rattle.spec_language.specs.Checked.{checked};
ghost use Rattle.lgx_check.specs.Scopes.{scope_of};
ghost use Rattle.spec_project.specs.Faults.{first_at};
ghost use Rattle.spec_project.specs.Limits.{HasFewRungs, IsShortText};
ghost use Rattle.spec_project.specs.Routines.{routine_fault, rung_fault, rungs_refusal};
ghost use Rattle.lgx_project.specs.Programs.{read_as};
ghost use Rattle.lgx_project.specs.Sources.{sources};
ghost use Rattle.lgx_json.specs.Answers.{Reads, ReadsField};

use lgx_check::{CheckError, CheckScope, check_routine};
use lgx_edit::{RoutineText, RoutineTexts};
use lgx_json::ProjectError;
use lgx_neutral::{RungError, read_rung};
use lgx_num::Items;
use lgx_prog::Rungs;
use lgx_rung::SourceRung;
use spec_project::{DescribedRoutine, Inner, ProjectCode};
use std::alloc::Global;

/// The rung that a text spells: P10 if it spells none.
fn read_one(alloc: Global, text: &[u8]) -> Result<SourceRung, ProjectError>
    requires { IsShortText text.now }
    ensures { ReadsField (rung_fault text.now) (result_ok (reading text.now)) result }
{
    match read_rung(alloc, text) {
        Ok(rung) => Ok(rung),
        Err(RungError::Memory) => Err(ProjectError::Memory),
        Err(RungError::Text(fault)) => {
            Err(ProjectError::here_for(alloc, ProjectCode::P10, Inner::OfText(fault)))
        }
    }
}

/// The rungs that texts spell, in order: P10 at the first that spells none.
fn read_source(alloc: Global, texts: &[Items<u8>]) -> Result<Items<SourceRung>, ProjectError>
    requires { Each IsShortText texts.now }
    ensures { Reads (first_at rung_fault texts.now) (sources texts.now) result }
{
    let mut rungs = Vec::new(alloc);
    for (i, text) in texts.iter().enumerate() {
        match read_one(alloc, text.as_slice()) {
            Ok(rung) => rungs.push(rung)?,
            Err(error) => return Err(error.at_place(alloc, i)),
        }
    }
    Ok(Items::of(rungs))
}

/// The rungs of a routine as they run, from those of its source: P10 at the first instruction at fault.
fn check_source(
    alloc: Global,
    scope: &CheckScope,
    source: &[SourceRung],
) -> Result<Rungs, ProjectError>
    requires sealed { scope.now.tags.now.sealed ≡ true }
    requires few_routines { length scope.now.routines.now < 2 ^ 32 }
    requires few_tasks { length scope.now.tasks.now < 2 ^ 32 }
    ensures { ReadsField (rungs_refusal (checked (scope_of scope.now) source.now)) (result_ok (checked (scope_of scope.now) source.now)) result }
{
    match check_routine(alloc, source, scope) {
        Ok(rungs) => Ok(rungs),
        Err(CheckError::Memory) => Err(ProjectError::Memory),
        Err(CheckError::Check(fault)) => {
            Err(ProjectError::here_for(alloc, ProjectCode::P10, Inner::OfCheck(fault)))
        }
    }
}

/// A routine with its rungs: P10 of the first text that spells none, and then of the first instruction at fault.
pub(crate) fn read_routine(
    alloc: Global,
    scope: &CheckScope,
    routine: &DescribedRoutine,
) -> Result<RoutineText, ProjectError>
    requires sealed { scope.now.tags.now.sealed ≡ true }
    requires few_routines { length scope.now.routines.now < 2 ^ 32 }
    requires few_tasks { length scope.now.tasks.now < 2 ^ 32 }
    requires small { HasFewRungs routine.now }
    ensures { Reads (routine_fault (scope_of scope.now) routine.now) (read_as (scope_of scope.now) routine.now) result }
{
    match read_source(alloc, routine.rungs.as_slice()) {
        Err(error) => Err(error.in_field(alloc, "rungs")),
        Ok(source) => {
            let checked = check_source(alloc, scope, source.as_slice())?;
            Ok(RoutineText {
                name: routine.name.copied(),
                source,
                checked,
            })
        }
    }
}

/// Routines with their rungs, in order: P10 of the first that is refused, at its place.
pub(crate) fn read_routines(
    alloc: Global,
    scope: &CheckScope,
    routines: &[DescribedRoutine],
) -> Result<RoutineTexts, ProjectError>
    requires sealed { scope.now.tags.now.sealed ≡ true }
    requires few_routines { length scope.now.routines.now < 2 ^ 32 }
    requires few_tasks { length scope.now.tasks.now < 2 ^ 32 }
    requires small { Each HasFewRungs routines.now }
    ensures { Reads (first_at (routine_fault (scope_of scope.now)) routines.now) (map (read_as (scope_of scope.now)) routines.now) result }
{
    let mut made = Vec::new(alloc);
    for (i, routine) in routines.iter().enumerate() {
        match read_routine(alloc, scope, routine) {
            Ok(one) => made.push(one)?,
            Err(error) => return Err(error.at_place(alloc, i)),
        }
    }
    Ok(Items::of(made))
}
