// The duties of a controller on stages and books that keep them and on those of lazy controllers. Each function is a law:
// it does nothing, and its contract is what is shown.
ghost use Rattle.std.specs.Prelude.{[], ◌∷◌, Some, None};
ghost use Rattle.spec_machine.specs.declared.event.RungEdit.TheVariants.{Delete};
ghost use Rattle.spec_machine.specs.declared.reply.Reply.TheVariants.{Done};
ghost use Rattle.spec_machine.specs.Edits.{Deleted};
ghost use Rattle.spec_schedule.specs.Stages.{KeepsState};
ghost use Rattle.spec_legal.specs.Merged.{IsMerged};
ghost use Rattle.spec_laws.specs.CheckedBooks.{IsCheckedBook};
ghost use Rattle.spec_laws.specs.TakenRungs.{IsFirstAgain};
ghost use Rattle.test_cases.specs.LawRuns.{cleared, one_nop};
ghost use Rattle.test_cases.specs.DutyStages.{KeepsStageDuties, BreaksAnswers, BreaksReleases, BreaksModes, BreaksRunStart, comes_to_run, triggers, overlaps, in_program, of_inhibited, barks, ignores_trigger, only_tells, hides_overlap, releases_inhibited, runs_without_release, runs_without_prescan, goes_on, stays_up, takes_any_word, tests_nothing, takes_any_client, book, unmerged, taken_twice};

/// Stages of runs.
pub fn duties_of_stages_are_kept()
    ensures comes_to_run { KeepsStageDuties comes_to_run }
    ensures triggers { KeepsStageDuties triggers }
    ensures overlaps { KeepsStageDuties overlaps }
    ensures in_program { KeepsStageDuties in_program }
    ensures of_inhibited { KeepsStageDuties of_inhibited }
    ensures barks { KeepsStageDuties barks }
{}

/// Stages of a controller that does too little. One that refuses nothing keeps the refusal law as the schedule has it.
pub fn duties_of_stages_are_broken()
    ensures ignores_trigger { BreaksReleases ignores_trigger }
    ensures only_tells { BreaksReleases only_tells }
    ensures hides_overlap { BreaksReleases hides_overlap }
    ensures releases_inhibited { BreaksReleases releases_inhibited }
    ensures runs_without_release { BreaksReleases runs_without_release }
    ensures runs_without_prescan { BreaksRunStart runs_without_prescan }
    ensures goes_on { BreaksModes goes_on }
    ensures stays_up { BreaksModes stays_up }
    ensures clears { BreaksAnswers (cleared Done 0) }
    ensures takes_any_word { BreaksAnswers takes_any_word }
    ensures tests_nothing { BreaksAnswers tests_nothing }
    ensures takes_any_client { BreaksAnswers takes_any_client }
    ensures legal { KeepsState (cleared Done 0) }
{}

/// A book whose merged rungs are without the accepted edit, and one whose edits take a rung twice.
pub fn books_are_broken()
    ensures checked { IsCheckedBook one_nop 0 book }
    ensures merged { IsMerged book }
    ensures unmerged { IsCheckedBook one_nop 0 unmerged → ⊥ }
    ensures unmerged_source { IsMerged unmerged → ⊥ }
    ensures taken_twice { IsCheckedBook one_nop 0 taken_twice → ⊥ }
{}

/// The rung that an accepted edit deleted is deleted again: the first edit is refused. So is the second of two.
pub fn retaken_rungs()
    ensures accepted { IsFirstAgain (Deleted 0 ∷ []) (Delete 0 ∷ []) (Some 0) }
    ensures forgotten { IsFirstAgain (Deleted 0 ∷ []) (Delete 0 ∷ []) None → ⊥ }
    ensures second { IsFirstAgain [] (Delete 1 ∷ Delete 1 ∷ []) None → ⊥ }
{}
