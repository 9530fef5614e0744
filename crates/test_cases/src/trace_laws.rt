// The laws of a trace beyond those of the audit, on traces that keep them and on traces that break one alone. Each function is a
// law: it does nothing, and its contract is what is shown.
ghost use Rattle.std.specs.Prelude.{◌≡◌, [], ◌∷◌};
ghost use Rattle.lgx_laws.specs.declared.error.Law.TheVariants.{Copies, Edits, Modes, Numbers, Starts};
ghost use Rattle.test_cases.specs.TraceLaws.{another_assembles, broken, clears, commands, copies, edits, ends_as_cps, held, never_ends, not_held, number_is_left_out, numbers, numbers_start_again, owner_is_refused, starts, starts_again, starts_nobody, starts_periodic, stays};

/// Traces that break no law.
pub fn trace_laws_are_kept()
    ensures copies { broken copies ≡ [] }
    ensures starts { broken starts ≡ [] }
    ensures commands { broken commands ≡ [] }
    ensures held { broken held ≡ [] }
    ensures edits { broken edits ≡ [] }
    ensures numbers { broken numbers ≡ [] }
{}

/// Traces that break one law.
pub fn trace_laws_are_broken()
    ensures ends_as_cps { broken ends_as_cps ≡ Copies ∷ [] }
    ensures never_ends { broken never_ends ≡ Copies ∷ [] }
    ensures starts_periodic { broken starts_periodic ≡ Starts ∷ [] }
    ensures starts_again { broken starts_again ≡ Starts ∷ [] }
    ensures starts_nobody { broken starts_nobody ≡ Starts ∷ [] }
    ensures clears { broken clears ≡ Modes ∷ [] }
    ensures stays { broken stays ≡ Modes ∷ [] }
    ensures not_held { broken not_held ≡ Modes ∷ [] }
    ensures another_assembles { broken another_assembles ≡ Edits ∷ [] }
    ensures owner_is_refused { broken owner_is_refused ≡ Edits ∷ [] }
    ensures numbers_start_again { broken numbers_start_again ≡ Numbers ∷ [] }
    ensures number_is_left_out { broken number_is_left_out ≡ Numbers ∷ [] }
{}
