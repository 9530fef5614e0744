// Checking a routine.
ghost use Rattle.std.specs.Prelude.{◌^◌, ◌≡◌, ◌<◌, true, length, IfOk, OnOk};
ghost use Rattle.spec_language.specs.Checked.{checked};
ghost use Rattle.spec_language.specs.Declarations.{bytes};
ghost use Rattle.spec_scan.specs.Executable.{AreExecutable};
ghost use Rattle.spec_scan.specs.KnownTasks.{KnowsTasks};
ghost use Rattle.lgx_check.specs.Answers.{AnswersCheck};
ghost use Rattle.lgx_check.specs.Progress.{HasLabels};
ghost use Rattle.lgx_check.specs.Scopes.{scope_of};

use crate::error::CheckError;
use crate::routine_checker::RoutineChecker;
use crate::scope::CheckScope;
use lgx_num::{Items, Memory};
use lgx_prog::Rungs;
use lgx_rung::SourceRung;
use spec_machine::{checked_rungs_are_executable, checked_rungs_know_tasks};
use std::alloc::Global;

/// Adds the labels of all rungs.
fn add_all_labels(checker: &mut RoutineChecker, rungs: &[SourceRung]) -> Result<(), Memory>
    requires { HasLabels checker.old.scope rungs.now 0 checker.old }
    ensures { OnOk result (HasLabels checker.old.scope rungs.now (length rungs.now) checker.new) }
{
    for (number, rung) in rungs.iter().enumerate() {
        checker.add_labels(number, rung)?;
    }
    Ok(())
}

/// A routine's rungs with their operands checked.
fn check_rungs(
    alloc: Global,
    checker: &mut RoutineChecker,
    rungs: &[SourceRung],
) -> Result<Rungs, CheckError>
    requires { HasLabels checker.old.scope rungs.now (length rungs.now) checker.old }
    ensures { AnswersCheck (checked checker.old.scope rungs.now) result }
{
    let mut made = Vec::with_capacity(alloc, rungs.len())?;
    for (number, rung) in rungs.iter().enumerate() {
        made.push(checker.check(number, rung)?)?;
    }
    Ok(Items::of(made))
}

/// A routine's rungs with their operands resolved against the declared tags, or the first fault: of the first instruction
/// at fault, in the order of the text, the least code that applies (profile).
///
/// What it gives may be run over the image of the scope's tags, and triggers none but the scope's tasks.
pub fn check_routine(
    alloc: Global,
    rungs: &[SourceRung],
    scope: &CheckScope,
) -> Result<Rungs, CheckError>
    requires sealed { scope.now.tags.now.sealed ≡ true }
    requires few_routines { length scope.now.routines.now < 2 ^ 32 }
    requires few_tasks { length scope.now.tasks.now < 2 ^ 32 }
    ensures answer { AnswersCheck (checked (scope_of scope.now) rungs.now) result }
    ensures executable { IfOk result (λ made. AreExecutable (bytes scope.now.tags.now.declarations) made) }
    ensures tasks { IfOk result (λ made. KnowsTasks (length scope.now.tasks.now) made) }
{
    // Called for what they say alone.
    checked_rungs_are_executable();
    checked_rungs_know_tasks();
    let _ = scope.tags.types();
    let mut checker = RoutineChecker::new(alloc, scope)?;
    add_all_labels(&mut checker, rungs)?;
    check_rungs(alloc, &mut checker, rungs)
}
