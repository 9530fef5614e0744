// Texts of journals and scripts, computed by the definitions. Each function is a law: it does nothing, and its
// contract is what is shown.
ghost use Rattle.std.specs.Prelude.{◌≡◌, ◌+◌, ◌-◌, ◌∷◌, ◌++◌, [], codes, map, replicate, length, Ok, Err, pos};
ghost use Rattle.spec_base.specs.declared.limits.TheConstants.{MAX_ACTIONS, MAX_JOURNAL_STEPS, MAX_LINE_BYTES, OWN_LANE};
ghost use Rattle.spec_text.specs.JournalText.{journal_of, journal_runs, text, refused, read_line};
ghost use Rattle.spec_text.specs.ScriptText.{script_of};
ghost use Rattle.test_cases.specs.JournalCases.{accept, paced_text, paced, tested_text, tested, one_program_text, one_program, edits_text, edits, edits_canonical, words_text, words, formless, before_end, plain, cut_scripts, lanes_text, lanes};
ghost use Rattle.spec_machine.specs.declared.event.Event.TheVariants.{Cpu, Tick, Act};
ghost use Rattle.spec_machine.specs.declared.event.RungEdit.TheVariants.{Insert};
ghost use Rattle.spec_machine.specs.declared.event.Action.TheVariants.{WordIn};
ghost use Rattle.spec_text.specs.declared.script.JournalCode.TheVariants.{J1, J2, J3, J4, J5};

/// Journals are read to their events.
pub fn journals_are_read()
    ensures paced { journal_of paced_text ≡ Ok paced }
    ensures tested { journal_of tested_text ≡ Ok tested }
    ensures one_program { journal_of one_program_text ≡ Ok one_program }
    ensures edits { journal_of edits_text ≡ Ok edits }
    ensures words { journal_of words_text ≡ Ok words }
    ensures empty { journal_of (codes " end \nend") ≡ Ok [] }
    ensures long_comment { journal_of (replicate (MAX_LINE_BYTES + 1) 35 ++ codes "\nend") ≡ Ok [] }
    ensures long_line { journal_of (codes "accept P M i 0 " ++ replicate (MAX_LINE_BYTES - 15) 65 ++ codes "\nend") ≡ Ok (Act OWN_LANE (accept (codes "P") (codes "M") (Insert 0 (replicate (MAX_LINE_BYTES - 15) 65) ∷ [])) ∷ []) }
    ensures zeros { journal_of (codes "cpu 0000000002\n@00 in I 007 -0\nend") ≡ Ok (Cpu ∷ Cpu ∷ Act 0 (WordIn (codes "I") 7 (pos 0)) ∷ []) }
    ensures whole_count { journal_runs (codes "cpu 4000000\ntick 4000000\nend") ≡ Ok (record { event = Cpu; count = MAX_JOURNAL_STEPS } ∷ record { event = Tick; count = MAX_JOURNAL_STEPS } ∷ []) }
{}

/// Refused journals, with the line and its first cause.
pub fn journals_are_refused()
    ensures formless { map (λ line. journal_of (before_end line)) formless ≡ replicate (length formless) (refused 1 J1) }
    ensures no_end { journal_of (codes "mode run\n\n") ≡ refused 3 J1 }
    ensures nothing { journal_of [] ≡ refused 1 J1 }
    ensures return_kept { journal_of (codes "mode run\nend\r") ≡ refused 2 J1 }
    ensures long { journal_of (replicate (MAX_LINE_BYTES + 1) 99 ++ codes "\nend\n") ≡ refused 1 J1 }
    ensures actions { read_line (record { steps = 0; ticks = 0; actions = MAX_ACTIONS }) (codes "clear") ≡ Err J4 }
    ensures lane { journal_of (codes "# lane\n@31 mode run\nend\n") ≡ refused 2 J2 }
    ensures form_before_lane { journal_of (codes "@31 mode\nend\n") ≡ refused 1 J1 }
    ensures zero { journal_of (codes "mode run\ncpu 0\nend\n") ≡ refused 2 J4 }
    ensures steps { journal_of (codes "cpu 4000000\ntick 1\ncpu 1\nend\n") ≡ refused 3 J4 }
    ensures ticks { journal_of (codes "tick 4000000\ncpu 1\n\ntick 1\nend\n") ≡ refused 4 J4 }
{}

/// Scripts are read to their lanes.
pub fn scripts_are_read()
    ensures lanes { script_of lanes_text ≡ Ok lanes }
    ensures whole { cut_scripts 13 1 ≡ Ok plain ∷ [] }
{}

/// Refused scripts, with the line and its first cause.
pub fn scripts_are_refused()
    ensures cut_in_first_line { cut_scripts 0 9 ≡ replicate 9 (refused 1 J1) }
    ensures cut_in_second_line { cut_scripts 9 4 ≡ replicate 4 (refused 2 J1) }
    ensures starts_with_end { script_of (codes "\nend\n") ≡ refused 2 J1 }
    ensures lane { script_of (codes "run 10 5 1\n@1 0 clear\nend\n") ≡ refused 2 J2 }
    ensures late { script_of (codes "run 10 5 1\n@0 3 in In1 0 1\nend\n") ≡ refused 2 J3 }
    ensures no_steps { script_of (codes "run 0 5 1\nend\n") ≡ refused 1 J4 }
    ensures no_pace { script_of (codes "run 5 0 1\nend\n") ≡ refused 1 J4 }
    ensures many_steps { script_of (codes "run 1000001 5 1\nend\n") ≡ refused 1 J4 }
    ensures many_lanes { script_of (codes "run 5 1 32\nend\n") ≡ refused 1 J4 }
    ensures back { script_of (codes "run 10 5 2\n@0 2 clear\n@1 1 clear\n@0 1 clear\nend\n") ≡ refused 4 J5 }
{}

/// The canonical text, which is read back.
pub fn journals_are_written()
    ensures paced { text paced ≡ paced_text }
    ensures tested { text tested ≡ tested_text }
    ensures one_program { text one_program ≡ one_program_text }
    ensures edits { text edits ≡ edits_canonical }
    ensures edits_again { journal_of edits_canonical ≡ Ok edits }
    ensures words { text words ≡ words_text }
    ensures nothing { text [] ≡ codes "end\n" }
{}
