// Runs of the machine that keep the laws of the schedule, and journals of scripts. Each function is a law: it does
// nothing, and its contract is what is shown.
ghost use Rattle.std.specs.Prelude.{◌≡◌, ◌∷◌, ◌++◌, [], take, IsTrue, false};
ghost use Rattle.std.specs.List.{AllByRecursion};
ghost use Rattle.test_cases.specs.LegalCases.{all_hold};
ghost use Rattle.test_cases.specs.JournalCases.{cpu, tick, paced, tested, one_program};
ghost use Rattle.test_cases.specs.LadderRuns.{one_rung};
ghost use Rattle.test_cases.specs.TaskRuns.{preemption, nested_regions, turns_at_ticks};
ghost use Rattle.test_cases.specs.EditRuns.{two_moves, owners};
ghost use Rattle.test_cases.specs.CopyRuns.{torn_copy, whole_copy};
ghost use Rattle.spec_machine.specs.declared.reply.ModeFault.TheVariants.{M2, M3};
ghost use Rattle.spec_machine.specs.declared.reply.Reply.TheVariants.{Mode};
ghost use Rattle.spec_schedule.specs.Partial.{IsPartial, IsComplete, is_paced, is_held_over};
ghost use Rattle.spec_schedule.specs.Legal.{each_from};
ghost use Rattle.spec_schedule.specs.Stages.{stages, keeps_copy, KeepsState};
ghost use Rattle.test_cases.specs.LawRuns.{torn, cleared, verdicts_on, run_mode, preempted, nested, turning, rungs_at, begun_at, held_copy, laneless, one_word, word, word_at_end, one_nop, emptied};

/// The laws that a trace shows by itself hold of runs with preemption, nested regions, turns at ticks, edits in
/// mid-scan and a synchronous copy.
pub fn runs_are_legal()
    ensures preemption { verdicts_on preemption preempted ≡ all_hold }
    ensures nested { verdicts_on nested_regions nested ≡ all_hold }
    ensures turns { verdicts_on turns_at_ticks turning ≡ all_hold }
    ensures edits { verdicts_on two_moves tested ≡ all_hold }
    ensures copy { verdicts_on whole_copy held_copy ≡ all_hold }
{}

/// A scan keeps the rungs that were selected at its begin, also if others are selected in its middle.
pub fn scans_keep_rungs()
    ensures kept { rungs_at one_nop (take 5 emptied) ≡ begun_at one_nop (take 5 emptied) }
    ensures taken { rungs_at one_nop emptied ≡ begun_at one_nop emptied }
{}

/// A synchronous copy is whole, and what is held or refused changes nothing.
pub fn copies_and_refusals()
    ensures copy { IsTrue (each_from keeps_copy (stages whole_copy held_copy)) }
    ensures held { AllByRecursion KeepsState (stages whole_copy held_copy) }
    ensures refused { AllByRecursion KeepsState (stages owners one_program) }
{}

/// Doctored runs break a law: a scan that began after a test has the base's rungs; the last element of a copy isn't
/// copied; a refusal has another cause than the first; a refusal changes the state.
pub fn doctored_runs_break_laws()
    ensures rungs { begun_at one_nop emptied ≡ rungs_at one_nop (take 5 emptied) → ⊥ }
    ensures copy { each_from keeps_copy torn ≡ false }
    ensures refused { KeepsState (cleared (Mode M3) 0) }
    ensures cause { KeepsState (cleared (Mode M2) 0) → ⊥ }
    ensures changed { KeepsState (cleared (Mode M3) 1) → ⊥ }
{}

/// Journals of scripts, partial and complete.
pub fn scripts_are_run()
    ensures paced { IsComplete one_rung (laneless 3 2) paced }
    ensures word { IsComplete torn_copy one_word word_at_end }
    ensures open { IsComplete whole_copy (laneless 3 10) (run_mode ∷ cpu 4) }
    ensures not_yet { IsPartial whole_copy (laneless 3 10) [] (run_mode ∷ cpu 3) }
{}

/// Journals that aren't of the script: a tick left out, a late one, steps beyond the script's, an action twice, and one
/// before its tick.
pub fn scripts_are_not_run()
    ensures no_tick { is_paced 2 (run_mode ∷ cpu 3) ≡ false }
    ensures late_tick { is_paced 2 (run_mode ∷ cpu 3 ++ tick 1) ≡ false }
    ensures more_steps { is_held_over one_rung 3 (run_mode ∷ cpu 2 ++ tick 1 ++ cpu 2) ≡ false }
    ensures closed { is_held_over whole_copy 3 (run_mode ∷ cpu 5) ≡ false }
    ensures twice { IsPartial torn_copy one_word (1 ∷ []) (word_at_end ++ word 0 1 ∷ []) → ⊥ }
    ensures early { IsPartial torn_copy one_word (1 ∷ []) (run_mode ∷ cpu 5 ++ tick 1 ++ word 0 1 ∷ []) → ⊥ }
{}
