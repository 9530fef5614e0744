// Merged rungs checked: those that are known are taken over.
ghost use Rattle.std.specs.Prelude.{◌^◌, ◌≡◌, ◌<◌, ℕ, true, false, length, Ok, IfOk, OnOk};
ghost use Rattle.spec_language.specs.Checked.{checked};
ghost use Rattle.lgx_check.specs.Answers.{AnswersAs};
ghost use Rattle.lgx_check.specs.Scopes.{scope_of};
ghost use Rattle.lgx_check.specs.Progress.{HasLabels, after_rung, checked_now, with_labels};
ghost use Rattle.lgx_edit.specs.Counting.{rung_count};
ghost use Rattle.lgx_edit.specs.Shared.{sources, checkeds};
ghost use Rattle.lgx_edit.specs.Picks.{pick_source, pick_sources, IsRungKnown, IsPickKnown, ArePicksKnown};

use crate::pick::Pick;
use crate::shared::SharedRung;
use lgx_check::{CheckError, CheckScope, RoutineChecker};
use lgx_num::Memory;
use lgx_rung::SourceRung;
use std::alloc::Global;

/// Adds the labels of a rung. A plain one has none.
fn add_labels_of(checker: &mut RoutineChecker, number: usize, pick: &Pick) -> Result<(), Memory>
    ensures { OnOk result (checker.new ≡ with_labels number (pick_source pick.now) checker.old) }
{
    if pick.is_old_and_plain() {
        return Ok(());
    }
    checker.add_labels(number, pick.source())
}

/// The checker of a merged routine, with the labels of all its rungs.
fn checker_of<'a>(
    alloc: Global,
    scope: &'a CheckScope<'a>,
    picks: &[Pick],
) -> Result<RoutineChecker<'a>, Memory>
    requires sealed { scope.now.tags.now.sealed ≡ true }
    requires few_routines { length scope.now.routines.now < 2 ^ 32 }
    requires few_tasks { length scope.now.tasks.now < 2 ^ 32 }
    ensures { IfOk result (λ c. HasLabels (scope_of scope.now) (pick_sources picks.now) (length picks.now) c) }
{
    let mut checker = RoutineChecker::new(alloc, scope)?;
    add_labels(&mut checker, picks)?;
    Ok(checker)
}

/// Adds the labels of all rungs.
fn add_labels(checker: &mut RoutineChecker, picks: &[Pick]) -> Result<(), Memory>
    requires { HasLabels checker.old.scope (pick_sources picks.now) 0 checker.old }
    ensures { OnOk result (HasLabels checker.old.scope (pick_sources picks.now) (length picks.now) checker.new) }
{
    for (number, pick) in picks.iter().enumerate() {
        add_labels_of(checker, number, pick)?;
    }
    Ok(())
}

/// The next rung, checked.
fn check_new(
    alloc: Global,
    checker: &mut RoutineChecker,
    number: usize,
    source: SourceRung,
) -> Result<SharedRung, CheckError>
    ensures answer { AnswersAs (λ r. r.checked) (checked_now number source checker.old) result }
    ensures source { IfOk result (λ r. r.source ≡ source) }
    ensures after { OnOk result (checker.new ≡ after_rung (rung_count source) checker.old) }
{
    let checked = checker.check(number, &source)?;
    Ok(SharedRung::of(alloc, source, checked)?)
}

/// Takes a rung that the routine had before as the next one, if it is plain and there is room for it. Else nothing changes.
fn take_over(checker: &mut RoutineChecker, rung: &SharedRung) -> bool
    requires { IsRungKnown checker.old.scope rung.now }
    ensures answer { result ≡ true → (number : ℕ) → checked_now number rung.now.source checker.old ≡ Ok rung.now.checked }
    ensures after { result ≡ true → checker.new ≡ after_rung (rung_count rung.now.source) checker.old }
    ensures left { result ≡ false → checker.new ≡ checker.old }
{
    if !rung.is_plain() {
        return false;
    }
    checker.take_known(rung.count())
}

/// The next rung, which the routine had before: it is taken over if it can be, and else checked again.
fn check_old(
    alloc: Global,
    checker: &mut RoutineChecker,
    number: usize,
    rung: SharedRung,
) -> Result<SharedRung, CheckError>
    requires { IsRungKnown checker.old.scope rung }
    ensures answer { AnswersAs (λ r. r.checked) (checked_now number rung.source checker.old) result }
    ensures source { IfOk result (λ r. r.source ≡ rung.source) }
    ensures after { OnOk result (checker.new ≡ after_rung (rung_count rung.source) checker.old) }
{
    if take_over(checker, &rung) {
        return Ok(rung);
    }
    let source = rung.source().copied(alloc)?;
    check_new(alloc, checker, number, source)
}

/// The next rung, checked.
fn check_pick(
    alloc: Global,
    checker: &mut RoutineChecker,
    number: usize,
    pick: Pick,
) -> Result<SharedRung, CheckError>
    requires { IsPickKnown checker.old.scope pick }
    ensures answer { AnswersAs (λ r. r.checked) (checked_now number (pick_source pick) checker.old) result }
    ensures source { IfOk result (λ r. r.source ≡ pick_source pick) }
    ensures after { OnOk result (checker.new ≡ after_rung (rung_count (pick_source pick)) checker.old) }
{
    match pick {
        Pick::Old(rung) => check_old(alloc, checker, number, rung),
        Pick::New(source) => check_new(alloc, checker, number, source),
    }
}

/// All rungs, checked after their labels were added.
fn check_picks(
    alloc: Global,
    checker: &mut RoutineChecker,
    picks: Vec<Pick>,
) -> Result<Vec<SharedRung>, CheckError>
    requires labels { HasLabels checker.old.scope (pick_sources picks.items) (length picks.items) checker.old }
    requires known { ArePicksKnown checker.old.scope picks.items }
    ensures answer { AnswersAs (λ rungs. checkeds rungs.items) (checked checker.old.scope (pick_sources picks.items)) result }
    ensures sources { IfOk result (λ rungs. sources rungs.items ≡ pick_sources picks.items) }
{
    let mut rungs = Vec::with_capacity(alloc, picks.len())?;
    for pick in picks {
        let rung = check_pick(alloc, checker, rungs.len(), pick)?;
        rungs.push(rung)?;
    }
    Ok(rungs)
}

/// The rungs of a merged routine, checked: the same as a check of all of them gives, or its fault.
pub fn check_merged(
    alloc: Global,
    scope: &CheckScope,
    picks: Vec<Pick>,
) -> Result<Vec<SharedRung>, CheckError>
    requires sealed { scope.now.tags.now.sealed ≡ true }
    requires few_routines { length scope.now.routines.now < 2 ^ 32 }
    requires few_tasks { length scope.now.tasks.now < 2 ^ 32 }
    requires known { ArePicksKnown (scope_of scope.now) picks.items }
    ensures answer { AnswersAs (λ rungs. checkeds rungs.items) (checked (scope_of scope.now) (pick_sources picks.items)) result }
    ensures sources { IfOk result (λ rungs. sources rungs.items ≡ pick_sources picks.items) }
{
    let mut checker = checker_of(alloc, scope, &picks)?;
    check_picks(alloc, &mut checker, picks)
}
