// Questions on journals, and their texts, computed by the definitions. Each function is a law: it does nothing, and its
// contract is what is shown.
ghost use Rattle.std.specs.Prelude.{◌≡◌, ◌∷◌, ◌++◌, [], codes, map, replicate, length, true, false, Ok, Err, Some, None, pos, neg_ℤ, is_ok};
ghost use Rattle.spec_explore.specs.declared.question.Comparison.TheVariants.{Equal, Differs, Less, AtMost, More, AtLeast};
ghost use Rattle.spec_explore.specs.declared.question.Operand.TheVariants.{Number, Watched};
ghost use Rattle.spec_explore.specs.declared.question.QuestionCode.TheVariants.{Q1, Q2, Q3, Q4};
ghost use Rattle.test_cases.specs.QuestionCases.{one_rung, test, never, never_at, asked, shown, five_steps, orders, late_after, late_when_made, SecondStep, FirstTick, some_names, read, refused_at, alone, both_on, formless_lines, with_tests};

/// What shows a line, after `mode run` and each of five processor steps of a rung that sets a bit at the third.
pub fn lines_are_shown()
    ensures set { shown one_rung (asked (never (test 1 Equal (Number (pos 1)) ∷ []) ∷ [])) five_steps ≡ false ∷ false ∷ false ∷ true ∷ true ∷ true ∷ [] }
    ensures at_scan_end { shown one_rung (asked (never_at 0 (test 1 Equal (Number (pos 1)) ∷ []) ∷ [])) five_steps ≡ false ∷ false ∷ false ∷ false ∷ true ∷ false ∷ [] }
    ensures other_program { shown one_rung (asked (never_at 1 (test 1 Equal (Number (pos 1)) ∷ []) ∷ [])) five_steps ≡ false ∷ false ∷ false ∷ false ∷ false ∷ false ∷ [] }
    ensures both { shown one_rung (asked (never (test 0 Equal (Number (pos 1)) ∷ test 1 Equal (Number (pos 0)) ∷ []) ∷ [])) five_steps ≡ true ∷ true ∷ true ∷ false ∷ false ∷ false ∷ [] }
    ensures places { shown one_rung (asked (never (test 0 Differs (Watched 1) ∷ []) ∷ [])) five_steps ≡ true ∷ true ∷ true ∷ false ∷ false ∷ false ∷ [] }
    ensures one_of_two { shown one_rung (asked (never (test 0 Equal (Number (pos 0)) ∷ []) ∷ never (test 1 AtLeast (Number (pos 1)) ∷ []) ∷ [])) five_steps ≡ false ∷ false ∷ false ∷ true ∷ true ∷ true ∷ [] }
    ensures comparisons { map orders (Equal ∷ Differs ∷ Less ∷ AtMost ∷ More ∷ AtLeast ∷ []) ≡ (false ∷ true ∷ false ∷ []) ∷ (true ∷ false ∷ true ∷ []) ∷ (true ∷ false ∷ false ∷ []) ∷ (true ∷ true ∷ false ∷ []) ∷ (false ∷ false ∷ true ∷ []) ∷ (false ∷ true ∷ true ∷ []) ∷ [] }
{}

/// An action from tick 1 on is late when more ticks than the window has came after it; and what is between a step and its
/// tick is a moment.
pub fn windows_and_moments()
    ensures none { map (late_after None) (0 ∷ 5 ∷ []) ≡ false ∷ false ∷ [] }
    ensures at_once { map (late_after (Some 0)) (0 ∷ 1 ∷ 2 ∷ []) ≡ false ∷ false ∷ true ∷ [] }
    ensures two_ticks { map (late_after (Some 2)) (0 ∷ 1 ∷ 2 ∷ 3 ∷ 4 ∷ []) ≡ false ∷ false ∷ false ∷ false ∷ true ∷ [] }
    ensures made { late_when_made 1 ≡ false }
    ensures between { SecondStep }
    ensures tick { FirstTick }
{}

/// Questions that are read.
pub fn questions_are_read()
    ensures both { alone (codes "never Fwd = 1 and Rev = 1") ≡ Ok (asked (both_on ∷ [])) }
    ensures within { read (codes "# a window" ∷ codes "within 2" ∷ [] ∷ codes " never  fwd <> -5 at MAIN " ∷ codes "never Buf[2] >= rev" ∷ codes "end" ∷ codes "more" ∷ []) ≡ Ok (record { within = Some 2; lines = never_at 0 (test 0 Differs (Number (neg_ℤ (pos 5))) ∷ []) ∷ never (test 2 AtLeast (Watched 1) ∷ []) ∷ [] }) }
    ensures tests { is_ok (alone (with_tests 15)) ≡ true }
    ensures lines { is_ok (read (replicate 64 (codes "never Fwd = 1") ++ codes "end" ∷ [])) ≡ true }
{}

/// Refused questions, with the line and its first cause.
pub fn questions_are_refused()
    ensures formless { map alone formless_lines ≡ replicate (length formless_lines) (refused_at 1 Q1) }
    ensures no_end { read (codes "never Fwd = 1" ∷ [] ∷ []) ≡ refused_at 3 Q1 }
    ensures tag { alone (codes "never Zz = 1 at Zz") ≡ refused_at 1 Q2 }
    ensures value { alone (codes "never Fwd = Zz") ≡ refused_at 1 Q2 }
    ensures program { alone (codes "never Fwd = 1 at Zz") ≡ refused_at 1 Q3 }
    ensures tests { alone (with_tests 16) ≡ refused_at 1 Q4 }
    ensures lines { read (replicate 65 (codes "never Fwd = 1") ++ codes "end" ∷ []) ≡ refused_at 65 Q4 }
    ensures twice { read (codes "within 1" ∷ codes "within 1" ∷ codes "end" ∷ []) ≡ refused_at 2 Q4 }
    ensures not_first { read (codes "never Fwd = 1" ∷ codes "within 1" ∷ codes "end" ∷ []) ≡ refused_at 2 Q4 }
    ensures nothing { read (codes "within 1" ∷ codes "end" ∷ []) ≡ refused_at 2 Q4 }
{}
