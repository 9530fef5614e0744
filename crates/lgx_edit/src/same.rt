// Books of edits copied and compared.
ghost use Rattle.std.specs.Prelude.{◌≡◌, true, IfOk};

use crate::book::EditBook;
use crate::changes::{EditedRoutine, KeptEdit, RungChange};
use crate::edits::ProgramEdits;
use crate::same_texts::{routine_again, same_routine, same_rung};
use crate::shared::SharedText;
use lgx_num::Memory;
use std::alloc::Global;

/// The change once more.
fn change_again(alloc: Global, change: &RungChange) -> Result<RungChange, Memory>
    ensures { IfOk result (λ copy. copy ≡ change.now) }
{
    match change {
        RungChange::Replace(rung, new) => {
            let copy = new.copied(alloc)?;
            Ok(RungChange::Replace(*rung, copy))
        }
        RungChange::Insert(rung, new) => {
            let copy = new.copied(alloc)?;
            Ok(RungChange::Insert(*rung, copy))
        }
        RungChange::Delete(rung) => Ok(RungChange::Delete(*rung)),
    }
}

/// Whether the changes are the same.
fn same_change(a: &RungChange, b: &RungChange) -> bool
    ensures { result ≡ true → a.now ≡ b.now }
{
    match (a, b) {
        (RungChange::Replace(i, x), RungChange::Replace(j, y)) => *i == *j && same_rung(x, y),
        (RungChange::Insert(i, x), RungChange::Insert(j, y)) => *i == *j && same_rung(x, y),
        (RungChange::Delete(i), RungChange::Delete(j)) => *i == *j,
        _ => false,
    }
}

/// Whether the accepted edits are the same.
fn same_edit(a: &KeptEdit, b: &KeptEdit) -> bool
    ensures { result ≡ true → a.now ≡ b.now }
{
    a.routine == b.routine && same_change(&a.change, &b.change)
}

/// The accepted edits once more.
fn edits_again(alloc: Global, edits: &[KeptEdit]) -> Result<Vec<KeptEdit>, Memory>
    ensures { IfOk result (λ copy. copy.items ≡ edits.now) }
{
    let mut list = Vec::with_capacity(alloc, edits.len())?;
    for edit in edits {
        let change = change_again(alloc, &edit.change)?;
        list.push(KeptEdit {
            routine: edit.routine,
            change,
        })?;
    }
    Ok(list)
}

/// Whether the accepted edits are the same, one by one.
fn same_edits(a: &[KeptEdit], b: &[KeptEdit]) -> bool
    ensures { result ≡ true → a.now ≡ b.now }
{
    if a.len() != b.len() {
        return false;
    }
    for i in 0..a.len() {
        if !same_edit(&a[i], &b[i]) {
            return false;
        }
    }
    true
}

/// The merged routine once more, if there is one.
fn merged_again(alloc: Global, merged: &Option<SharedText>) -> Result<Option<SharedText>, Memory>
    ensures { IfOk result (λ copy. copy ≡ merged.now) }
{
    match merged {
        None => Ok(None),
        Some(routine) => {
            let copy = routine_again(alloc, routine)?;
            Ok(Some(copy))
        }
    }
}

/// Whether the merged routines are the same.
fn same_merged(a: &Option<SharedText>, b: &Option<SharedText>) -> bool
    ensures { result ≡ true → a.now ≡ b.now }
{
    match (a, b) {
        (None, None) => true,
        (Some(x), Some(y)) => same_routine(x, y),
        _ => false,
    }
}

/// The routine once more, with what the accepted edits make of it.
fn edited_again(alloc: Global, routine: &EditedRoutine) -> Result<EditedRoutine, Memory>
    ensures { IfOk result (λ copy. copy ≡ routine.now) }
{
    let base = routine_again(alloc, &routine.base)?;
    let merged = merged_again(alloc, &routine.merged)?;
    Ok(EditedRoutine { base, merged })
}

/// Whether the routines are the same, and what the accepted edits make of them.
fn same_edited(a: &EditedRoutine, b: &EditedRoutine) -> bool
    ensures { result ≡ true → a.now ≡ b.now }
{
    same_merged(&a.merged, &b.merged) && same_routine(&a.base, &b.base)
}

/// The routines once more.
fn routines_again(alloc: Global, routines: &[EditedRoutine]) -> Result<Vec<EditedRoutine>, Memory>
    ensures { IfOk result (λ copy. copy.items ≡ routines.now) }
{
    let mut list = Vec::with_capacity(alloc, routines.len())?;
    for routine in routines {
        let copy = edited_again(alloc, routine)?;
        list.push(copy)?;
    }
    Ok(list)
}

/// Whether the routines are the same, one by one.
fn same_routines(a: &[EditedRoutine], b: &[EditedRoutine]) -> bool
    ensures { result ≡ true → a.now ≡ b.now }
{
    if a.len() != b.len() {
        return false;
    }
    for i in 0..a.len() {
        if !same_edited(&a[i], &b[i]) {
            return false;
        }
    }
    true
}

/// Whether the edits have the same owner, or none.
fn same_owner(a: Option<u32>, b: Option<u32>) -> bool
    ensures { result ≡ true → a ≡ b }
{
    a == b
}

impl ProgramEdits {
    /// The edits once more, with the program's versions.
    fn copied(&self, alloc: Global) -> Result<ProgramEdits, Memory>
        ensures { IfOk result (λ copy. copy ≡ self.now) }
    {
        let routines = routines_again(alloc, &self.routines)?;
        let accepted = edits_again(alloc, &self.accepted)?;
        let versions = self.versions.copied(alloc)?;
        Ok(ProgramEdits {
            name: self.name.copied(),
            main: self.main,
            routines,
            accepted,
            owner: self.owner,
            versions,
        })
    }

    /// Whether the edits are the same, and the program's versions.
    fn is_same(&self, other: &ProgramEdits) -> bool
        ensures { result ≡ true → self.now ≡ other.now }
    {
        same_owner(self.owner, other.owner)
            && same_edits(&self.accepted, &other.accepted)
            && self.versions.is_same(&other.versions)
            && self.main == other.main
            && self.name.is_spelled_as(&other.name)
            && same_routines(&self.routines, &other.routines)
    }
}

/// The edits of all programs once more.
fn programs_again(alloc: Global, programs: &[ProgramEdits]) -> Result<Vec<ProgramEdits>, Memory>
    ensures { IfOk result (λ copy. copy.items ≡ programs.now) }
{
    let mut list = Vec::with_capacity(alloc, programs.len())?;
    for edits in programs {
        let copy = edits.copied(alloc)?;
        list.push(copy)?;
    }
    Ok(list)
}

/// Whether the edits of all programs are the same.
fn same_programs(a: &[ProgramEdits], b: &[ProgramEdits]) -> bool
    ensures { result ≡ true → a.now ≡ b.now }
{
    if a.len() != b.len() {
        return false;
    }
    for i in 0..a.len() {
        if !a[i].is_same(&b[i]) {
            return false;
        }
    }
    true
}

impl EditBook {
    /// The book once more, with the versions of all programs, each in its slot.
    pub fn copied(&self, alloc: Global) -> Result<EditBook, Memory>
        ensures { IfOk result (λ copy. copy ≡ self.now) }
    {
        let programs = programs_again(alloc, &self.programs)?;
        Ok(EditBook { programs })
    }

    /// Whether the books are the same, and the versions of all programs, each in the same slot.
    pub fn is_same(&self, other: &EditBook) -> bool
        ensures { result ≡ true → self.now ≡ other.now }
    {
        same_programs(&self.programs, &other.programs)
    }
}
