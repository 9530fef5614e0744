// The duties of a controller on traces that keep them and on those of lazy controllers. Each function is a law: it does
// nothing, and its contract is what is shown.
ghost use Rattle.std.specs.Prelude.{◌≡◌};
ghost use Rattle.spec_schedule.specs.Legal.{verdicts};
ghost use Rattle.test_cases.specs.LegalCases.{all_hold};
ghost use Rattle.test_cases.specs.DutyCases.{duties, all_kept, breaks_watchdogs, breaks_releases, breaks_triggers, breaks_scans, two_programs, in_turn, begins_anew, goes_on_after_program, only_begins, first_only, steps_at_once, table, releases, never_releases, releases_early, overlaps, hides_overlap, counts_anew, counts_on, runs_out, no_watchdog, barks_early, both_out, second_told, triggers_twice, second_untold, first_refused};

/// Traces that keep every duty.
pub fn duties_are_kept()
    ensures releases { duties releases ≡ all_kept }
    ensures overlaps { duties overlaps ≡ all_kept }
    ensures counts_anew { duties counts_anew ≡ all_kept }
    ensures runs_out { duties runs_out ≡ all_kept }
    ensures both_out { duties both_out ≡ all_kept }
    ensures triggers_twice { duties triggers_twice ≡ all_kept }
    ensures in_turn { two_programs in_turn ≡ all_kept }
    ensures begins_anew { two_programs begins_anew ≡ all_kept }
{}

/// Traces of a controller that does too little, or too early.
pub fn duties_are_broken()
    ensures never_releases { duties never_releases ≡ breaks_releases }
    ensures releases_early { duties releases_early ≡ breaks_releases }
    ensures hides_overlap { duties hides_overlap ≡ breaks_releases }
    ensures counts_on { duties counts_on ≡ breaks_releases }
    ensures no_watchdog { duties no_watchdog ≡ breaks_watchdogs }
    ensures barks_early { duties barks_early ≡ breaks_watchdogs }
    ensures second_told { duties second_told ≡ breaks_watchdogs }
    ensures second_untold { duties second_untold ≡ breaks_triggers }
    ensures first_refused { duties first_refused ≡ breaks_triggers }
    ensures only_begins { two_programs only_begins ≡ breaks_scans }
    ensures first_only { two_programs first_only ≡ breaks_scans }
    ensures steps_at_once { two_programs steps_at_once ≡ breaks_scans }
    ensures goes_on_after_program { two_programs goes_on_after_program ≡ breaks_scans }
{}

/// Lazy controllers that keep all the laws of the schedule.
pub fn lazy_traces_are_legal()
    ensures never_releases { verdicts table never_releases ≡ all_hold }
    ensures no_watchdog { verdicts table no_watchdog ≡ all_hold }
    ensures only_begins { verdicts table only_begins ≡ all_hold }
{}
