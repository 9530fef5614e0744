// An accept made ready before a book is changed.
ghost use Rattle.std.specs.Prelude.{◌^◌, ◌≡◌, ◌<◌, ◌≤◌, ◌++◌, ℕ, true, None, length, map, filter_map, nat_le, slice_index_or, IfOk};
ghost use Rattle.spec_base.specs.declared.limits.TheConstants.{MAX_EDITS, MAX_PROGRAM_INSTRUCTIONS};
ghost use Rattle.spec_machine.specs.Edits.{Book, merged, change_in, no_routine, routine_at, instruction_count, ok_or_cause, other_owner, accept_in};
ghost use Rattle.spec_machine.specs.declared.reply.EditFault.TheVariants.{E8};
ghost use Rattle.spec_language.specs.Checked.{checked};
ghost use Rattle.lgx_prog.specs.Search.{AreFlat};
ghost use Rattle.lgx_prog.specs.FlatProgram.{IsFlatProgram};
ghost use Rattle.lgx_edit.specs.Texts.{base_of, merged_of, text_of, accepted_of};
ghost use Rattle.lgx_edit.specs.Shared.{sources, checkeds};
ghost use Rattle.lgx_edit.specs.Picks.{pick_sources, ArePicksKnown};
ghost use Rattle.lgx_edit.specs.EditsView.{rungs_of};
ghost use Rattle.lgx_edit.specs.CheckedBooks.{AreTextsChecked};
ghost use Rattle.lgx_edit.specs.Answering.{AnswersAs};
ghost use Rattle.lgx_edit.specs.Drafts.{change_kept, routines_with, scope_against, changes_so_far, IsBookOf, IsDraft, with_draft};

use crate::changes::{EditedRoutine, KeptEdit};
use crate::count::left_by_shared;
use crate::error::EditError;
use crate::fresh::joined;
use crate::judge::{first_again, first_misplaced};
use crate::merge::merged_rungs;
use crate::passes::check_merged;
use crate::pick::Pick;
use crate::read::read_changes;
use crate::shared::{SharedRung, SharedText};
use lgx_check::{CheckError, CheckScope};
use lgx_num::{Items, Memory, Name};
use lgx_prog::{FlatProgram, FlatRoutine};
use lgx_tags::TagTable;
use spec_base::limits::MAX_PROGRAM_INSTRUCTIONS;
use spec_language::TaskName;
use spec_machine::{EditFault, RungEdit};
use std::alloc::Global;

/// What merged rungs are checked against: the sealed tags, the number of the program, and the names of the tasks.
#[derive(Drop)]
pub struct Against<'a> {
    pub tags: &'a TagTable,
    pub program: u32,
    pub tasks: &'a [TaskName],
}

/// What an accept makes: the edits that it adds, the merged routine, and the merged program.
#[derive(Drop)]
pub struct Draft {
    pub edits: Vec<KeptEdit>,
    pub text: SharedText,
    pub program: FlatProgram,
}

/// The names of these routines.
fn names(alloc: Global, routines: &[EditedRoutine]) -> Result<Vec<Name>, Memory>
    ensures { IfOk result (λ names. names.items ≡ map (λ r. r.name) (map base_of routines.now)) }
{
    let mut names = Vec::with_capacity(alloc, routines.len())?;
    for routine in routines {
        names.push(routine.base.name.copied())?;
    }
    Ok(names)
}

/// Merged rungs checked. E8 comes if they are refused.
fn check(
    alloc: Global,
    routines: &[EditedRoutine],
    picks: Vec<Pick>,
    against: &Against,
) -> Result<Vec<SharedRung>, EditError>
    requires sealed { against.now.tags.now.sealed ≡ true }
    requires few_routines { length routines.now < 2 ^ 32 }
    requires few_tasks { length against.now.tasks.now < 2 ^ 32 }
    requires known { ArePicksKnown (scope_against against.now routines.now) picks.items }
    ensures answer { AnswersAs (λ rungs. checkeds rungs.items) (ok_or_cause (checked (scope_against against.now routines.now) (pick_sources picks.items)) E8) result }
    ensures sources { IfOk result (λ rungs. sources rungs.items ≡ pick_sources picks.items) }
{
    let names = names(alloc, routines)?;
    let scope = CheckScope {
        tags: against.tags,
        program: against.program,
        routines: names.as_slice(),
        tasks: against.tasks,
    };
    match check_merged(alloc, &scope, picks) {
        Ok(rungs) => Ok(rungs),
        Err(CheckError::Check(fault)) => Err(EditError::Edit(EditFault::E8(fault))),
        Err(CheckError::Memory) => Err(EditError::Memory),
    }
}

/// The merged text of a routine with these new edits. E8 comes if it is refused.
fn merged_text(
    alloc: Global,
    routines: &[EditedRoutine],
    accepted: &[KeptEdit],
    new: &[KeptEdit],
    routine: u32,
    against: &Against,
) -> Result<SharedText, EditError>
    requires within { routine < length routines.now }
    requires sealed { against.now.tags.now.sealed ≡ true }
    requires few_routines { length routines.now < 2 ^ 32 }
    requires few_tasks { length against.now.tasks.now < 2 ^ 32 }
    requires checked { AreTextsChecked (scope_against against.now routines.now) (map base_of routines.now) }
    ensures answer { AnswersAs (λ t. checkeds t.rungs) (ok_or_cause (checked (scope_against against.now routines.now) (merged (routine_at (map base_of routines.now) routine).source (changes_so_far routine accepted.now ++ changes_so_far routine new.now))) E8) result }
    ensures source { IfOk result (λ t. sources t.rungs ≡ merged (routine_at (map base_of routines.now) routine).source (changes_so_far routine accepted.now ++ changes_so_far routine new.now)) }
    ensures name { IfOk result (λ t. t.name ≡ (routine_at (map merged_of routines.now) routine).name) }
{
    let edited = &routines[routine as usize];
    let name = edited.merged().name.copied();
    let picks = merged_rungs(alloc, edited.base.rungs.as_slice(), accepted, new, routine)?;
    let rungs = check(alloc, routines, picks, against)?;
    Ok(SharedText {
        name,
        rungs: Items::of(rungs),
    })
}

/// The merged text of routine `k`, where one of them has another text from now on.
fn text_at<'a>(
    routines: &'a [EditedRoutine],
    k: usize,
    changed: u32,
    text: &'a SharedText,
) -> &'a SharedText
    requires { k < length routines.now }
    ensures { text_of result.now ≡ slice_index_or (routines_with changed text.now routines.now) k no_routine }
{
    if k == changed as usize {
        return text;
    }
    routines[k].merged()
}

/// Whether the merged program has no more instructions than there may be.
fn has_room(routines: &[EditedRoutine], changed: u32, text: &SharedText) -> bool
    ensures { result ≡ nat_le (instruction_count (routines_with changed text.now routines.now)) MAX_PROGRAM_INSTRUCTIONS }
{
    let mut left = MAX_PROGRAM_INSTRUCTIONS as u32 + 1;
    for k in 0..routines.len() {
        left = left_by_shared(left, text_at(routines, k, changed, text).rungs.as_slice());
    }
    left > 0
}

/// The flat code of the merged routines.
fn flat_with(
    alloc: Global,
    routines: &[EditedRoutine],
    changed: u32,
    text: &SharedText,
) -> Result<Vec<FlatRoutine>, Memory>
    ensures { IfOk result (λ flats. AreFlat flats.items (map (λ r. r.checked) (routines_with changed text.now routines.now))) }
{
    let mut flats = Vec::with_capacity(alloc, routines.len())?;
    for k in 0..routines.len() {
        let flat = joined(alloc, text_at(routines, k, changed, text).rungs.as_slice())?;
        flats.push(flat)?;
    }
    Ok(flats)
}

/// The program as it is after the edit: the changed text in its place, each other text and the main routine as they were.
fn program_with(
    alloc: Global,
    routines: &[EditedRoutine],
    changed: u32,
    text: &SharedText,
    main: u32,
) -> Result<FlatProgram, Memory>
    requires { main < length routines.now }
    ensures { IfOk result (λ program. IsFlatProgram program (rungs_of main (routines_with changed text.now routines.now))) }
{
    let flats = flat_with(alloc, routines, changed, text)?;
    FlatProgram::of(alloc, flats, main)
}

/// What an accept of edits of a routine makes, or the first cause why it is refused.
///
/// E5 comes at the first edit of a rung that isn't there, E6 at the first that replaces or deletes a rung a second time,
/// E7 at the first whose text spells no rung, E8 if the merged routine is refused, E9 if the merged program has too many
/// instructions. Time grows with the merged routine and the program.
pub fn drafted(
    alloc: Global,
    routines: &[EditedRoutine],
    accepted: &[KeptEdit],
    main: u32,
    routine: u32,
    edits: &[RungEdit],
    against: &Against,
) -> Result<Draft, EditError>
    requires within { routine < length routines.now }
    requires main { main < length routines.now }
    requires few_routines { length routines.now < 2 ^ 32 }
    requires few_edits { length edits.now ≤ MAX_EDITS }
    requires sealed { against.now.tags.now.sealed ≡ true }
    requires few_tasks { length against.now.tasks.now < 2 ^ 32 }
    requires checked { AreTextsChecked (scope_against against.now routines.now) (map base_of routines.now) }
    ensures answer { (b : Book) (lane : ℕ) → IsBookOf b routines.now accepted.now → other_owner b lane ≡ None → AnswersAs (with_draft lane routine b) (accept_in (scope_against against.now routines.now) lane routine edits.now b) result }
    ensures draft { IfOk result (IsDraft main routine routines.now accepted.now edits.now) }
{
    let rungs = routines[routine as usize].base.rungs.len();
    if let Some(k) = first_misplaced(rungs, edits) {
        return Err(EditError::Edit(EditFault::E5(k)));
    }
    if let Some(k) = first_again(accepted, routine, edits) {
        return Err(EditError::Edit(EditFault::E6(k)));
    }
    let new = read_changes(alloc, routine, edits)?;
    let text = merged_text(alloc, routines, accepted, new.as_slice(), routine, against)?;
    if !has_room(routines, routine, &text) {
        return Err(EditError::Edit(EditFault::E9));
    }
    let program = program_with(alloc, routines, routine, &text, main)?;
    Ok(Draft {
        edits: new,
        text,
        program,
    })
}
