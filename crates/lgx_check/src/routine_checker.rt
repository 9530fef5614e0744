// The check of one routine, rung by rung.
ghost use Rattle.std.specs.Prelude.{◌^◌, ◌≡◌, ◌+◌, ◌<◌, ◌≤◌, ◌↔◌, ℕ, [], true, length, if◌then◌else◌, Ok, IsTrue, IfOk, MatchResult, OnOk};
ghost use Rattle.lgx_rung.specs.Tree.{Tree, Source, instructions};
ghost use Rattle.lgx_rung.specs.declared.ins.Ins.{Ins};
ghost use Rattle.spec_base.specs.declared.limits.TheConstants.{MAX_ROUTINE_INSTRUCTIONS};
ghost use Rattle.lgx_check.specs.Answers.{AnswersCheck};
ghost use Rattle.lgx_check.specs.Known.{IsKnown};
ghost use Rattle.lgx_check.specs.Progress.{after_rung, checked_now, with_labels};
ghost use Rattle.lgx_check.specs.Scopes.{scope_of};

use crate::checker::Checker;
use crate::error::CheckError;
use crate::label::LabelPlace;
use crate::scope::CheckScope;
use crate::spot::InstructionPlace;
use lgx_num::Memory;
use lgx_prog::Rung;
use lgx_rung::SourceRung;
use spec_base::limits::MAX_ROUTINE_INSTRUCTIONS;
use std::alloc::Global;
use std::marker::Model;

/// Checks a routine rung by rung, against a scope: first the labels of all its rungs are added, and then each rung is checked
/// in turn, or taken as one that is known.
#[derive(Drop)]
pub struct RoutineChecker<'a> {
    checker: Checker<'a>,
    before: u32,
}

impl<'a> Model for RoutineChecker<'a> {
    ghost use Rattle.std.specs.Prelude.{◌≤◌};
    ghost use Rattle.spec_base.specs.declared.limits.TheConstants.{MAX_ROUTINE_INSTRUCTIONS};
    ghost use Rattle.lgx_check.specs.Checkers.{IsReady, checked_scope};
    ghost use Rattle.lgx_check.specs.Progress.{Progress};

    ghost Value = { Progress };

    ghost view = { λ c. record { scope = checked_scope c.checker; labels = c.checker.labels; before = c.before } };

    ghost invariant = { λ c. IsReady c.checker × (c.before ≤ MAX_ROUTINE_INSTRUCTIONS) };
}

impl<'a> RoutineChecker<'a> {
    /// A checker without labels, before a routine's first rung.
    pub fn new(alloc: Global, scope: &'a CheckScope<'a>) -> Result<RoutineChecker<'a>, Memory>
        requires sealed { scope.now.tags.now.sealed ≡ true }
        requires few_routines { length scope.now.routines.now < 2 ^ 32 }
        requires few_tasks { length scope.now.tasks.now < 2 ^ 32 }
        ensures { IfOk result (λ c. c ≡ record { scope = scope_of scope.now; labels = []; before = 0 }) }
    {
        let checker = Checker::new(alloc, scope)?;
        Ok(RoutineChecker { checker, before: 0 })
    }

    /// Adds the labels of the rung of this number, counted from 0. A plain rung has none.
    ///
    /// Memory also comes if the rung has 4,294,967,296 instructions, or the routine as many labels. Then some of the rung's
    /// labels may be there already.
    pub fn add_labels(&mut self, number: usize, rung: &SourceRung) -> Result<(), Memory>
        ensures { OnOk result (self.new ≡ with_labels number rung.now self.old) }
    {
        let mut next = LabelPlace {
            rung: number as u64,
            ins: 0,
        };
        self.checker.labels.add_rung(&mut next, rung)
    }

    /// The rung of this number, counted from 0, with its operands checked, after the rungs before it.
    pub fn check(&mut self, number: usize, rung: &SourceRung) -> Result<Rung, CheckError>
        ensures answer { AnswersCheck (checked_now number rung.now self.old) result }
        ensures after { MatchResult result (λ _. self.new ≡ after_rung (length (instructions rung.now)) self.old) (λ _. self.new ≡ self.old) }
    {
        let mut place = InstructionPlace {
            rung: number as u64,
            ins: 0,
            before: self.before,
        };
        let checked = self.checker.check_rung(&mut place, true, rung)?;
        self.before = place.before;
        Ok(checked)
    }

    /// Takes a known rung of this many instructions as the next one, in place of a check. False comes, and nothing changes, if
    /// the routine has no room for it.
    pub fn take_known(&mut self, count: u32) -> bool
        ensures room { IsTrue result ↔ self.old.before + count ≤ MAX_ROUTINE_INSTRUCTIONS }
        ensures after { self.new ≡ (if result then after_rung count self.old else self.old) }
        ensures known { IsTrue result → (number : ℕ) (rung : Source) (made : Tree Ins) → IsKnown self.old.scope rung made → length (instructions rung) ≡ count → checked_now number rung self.old ≡ Ok made }
    {
        if count > MAX_ROUTINE_INSTRUCTIONS as u32 - self.before {
            return false;
        }
        self.before += count;
        true
    }
}
