// Link scripts, computed by the definitions. Each function is a law: it does nothing, and its contract is what is shown.
ghost use Rattle.std.specs.Prelude.{◌≡◌, ◌∷◌, [], codes, map};
ghost use Rattle.spec_link.specs.declared.script.LinkCode.TheVariants.{J1, J2, J4, U1};
ghost use Rattle.test_cases.specs.LinkRuns.{Reordered, HeldByCopies, read, second, at_line};

/// What two controllers and the link between them report.
pub fn links_are_run()
    ensures reordered { Reordered }
    ensures held { HeldByCopies }
{}

/// Refused link scripts, with the line and its first cause.
pub fn links_are_refused()
    ensures no_output { read (codes "link In1 In1" ∷ codes "end" ∷ []) ≡ at_line 1 U1 }
    ensures no_input { read (codes "link Out1 Out1" ∷ codes "end" ∷ []) ≡ at_line 1 U1 }
    ensures unknown { read (codes "# a comment" ∷ codes "link Out2 In1" ∷ codes "end" ∷ []) ≡ at_line 2 U1 }
    ensures no_name { read (codes "link Out1 1n" ∷ codes "end" ∷ []) ≡ at_line 1 J1 }
    ensures no_link { map (λ line. read (line ∷ codes "end" ∷ [])) (codes "end" ∷ codes "send" ∷ codes "link Out1" ∷ []) ≡ at_line 1 J1 ∷ at_line 1 J1 ∷ at_line 1 J1 ∷ [] }
    ensures no_end { read (codes "link Out1 In1" ∷ codes "send" ∷ []) ≡ at_line 3 J1 }
    ensures formless { map second (codes "a end" ∷ codes "b" ∷ codes "send 1" ∷ codes "deliver" ∷ codes "deliver 4294967296" ∷ codes "cpu 1" ∷ []) ≡ at_line 2 J1 ∷ at_line 2 J1 ∷ at_line 2 J1 ∷ at_line 2 J1 ∷ at_line 2 J1 ∷ at_line 2 J1 ∷ [] }
    ensures lane { second (codes "b @31 clear") ≡ at_line 2 J2 }
    ensures zero { second (codes "a cpu 0") ≡ at_line 2 J4 }
    ensures own_limits { read (codes "link Out1 In1" ∷ codes "a cpu 4000000" ∷ codes "b cpu 4000000" ∷ codes "b cpu 1" ∷ codes "end" ∷ []) ≡ at_line 4 J4 }
{}
