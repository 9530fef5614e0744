// The laws of the schedule on traces that keep them and on traces that break one. Each function is a law: it does
// nothing, and its contract is what is shown.
ghost use Rattle.std.specs.Prelude.{◌≡◌};
ghost use Rattle.spec_schedule.specs.Legal.{verdicts};
ghost use Rattle.test_cases.specs.LegalCases.{two, equals, one, one_inhibited, all_inhibited, preempts, waits, unreleased, idles, outlives, nested, interrupted, uninterrupted, copied, copies_on, turns, queued, continues, alternates, keeps_it, edited, assembled, accepted_again, untested, not_triggered, triggered, ends_and_begins, ends_and_idles, early, late, all_hold, breaks_priority, breaks_turn, breaks_tick, breaks_version, breaks_region};

/// Traces that keep every law.
pub fn laws_hold()
    ensures preempts { verdicts two preempts ≡ all_hold }
    ensures nested { verdicts two nested ≡ all_hold }
    ensures copied { verdicts two copied ≡ all_hold }
    ensures turns { verdicts equals turns ≡ all_hold }
    ensures keeps_it { verdicts equals keeps_it ≡ all_hold }
    ensures edited { verdicts one edited ≡ all_hold }
    ensures assembled { verdicts one assembled ≡ all_hold }
    ensures accepted_again { verdicts one accepted_again ≡ all_hold }
    ensures not_triggered { verdicts one_inhibited not_triggered ≡ all_hold }
    ensures ends_and_begins { verdicts all_inhibited ends_and_begins ≡ all_hold }
{}

/// Traces that break one law.
pub fn laws_are_broken()
    ensures waits { verdicts two waits ≡ breaks_priority }
    ensures unreleased { verdicts two unreleased ≡ breaks_priority }
    ensures idles { verdicts two idles ≡ breaks_priority }
    ensures outlives { verdicts two outlives ≡ breaks_priority }
    ensures uninterrupted { verdicts two uninterrupted ≡ breaks_priority }
    ensures copies_on { verdicts two copies_on ≡ breaks_priority }
    ensures queued { verdicts equals queued ≡ breaks_priority }
    ensures alternates { verdicts equals alternates ≡ breaks_turn }
    ensures continues { verdicts equals continues ≡ breaks_tick }
    ensures early { verdicts one early ≡ breaks_version }
    ensures late { verdicts one late ≡ breaks_version }
    ensures untested { verdicts one untested ≡ breaks_version }
    ensures triggered { verdicts one_inhibited triggered ≡ breaks_priority }
    ensures ends_and_idles { verdicts all_inhibited ends_and_idles ≡ breaks_priority }
    ensures interrupted { verdicts two interrupted ≡ breaks_region }
{}
