// Laws of neutral text, and texts worked by hand.
ghost use Rattle.std.specs.Prelude.{◌≡◌, ◌↔◌, ℕ, false, List, [], ◌∷◌, codes, Ok, Err};
ghost use Rattle.lgx_rung.specs.declared.fault.TextFault.{TextFault};
ghost use Rattle.lgx_rung.specs.declared.fault.TextCode.TheVariants.{T1, T2, T3, T4, T5};
ghost use Rattle.lgx_rung.specs.declared.op.Op.TheVariants.{Ote, Xic};
ghost use Rattle.lgx_rung.specs.Text.{IsSourceRung, IsTextCause, Spells, canon};
ghost use Rattle.lgx_rung.specs.Lexemes.{AreTokens};
ghost use Rattle.lgx_rung.specs.Tokens.{Placed, faulty, ins, read_rung, tokens};
ghost use Rattle.lgx_rung.specs.Tree.{Source, end, fork, last, leg};

/// The tokens of a text are what it is in plain words: blanks, a run that the next byte doesn't continue or a single byte, and so
/// on.
pub fn tokens_are_runs_and_single_bytes()
    ensures { (text : List ℕ) (ts : List Placed) → (tokens text ≡ ts) ↔ AreTokens ts text false 0 }
{}

/// A text is read to the rung that it spells, and every other text to its first fault.
pub fn texts_are_read()
    ensures rung { (text : List ℕ) (r : Source) → (read_rung text ≡ Ok r) ↔ Spells text r }
    ensures fault { (text : List ℕ) (f : TextFault) → (read_rung text ≡ Err f) ↔ IsTextCause text f }
{}

/// No text spells two rungs.
pub fn text_spells_one_rung()
    ensures { (text : List ℕ) (a b : Source) → Spells text a → Spells text b → a ≡ b }
{}

/// A rung's canonical text spells it.
pub fn canonical_text_spells_its_rung()
    ensures { (r : Source) → IsSourceRung r → Spells (canon r) r }
{}

/// Texts, and what they are read to.
pub fn worked_texts()
    ensures no_text { read_rung [] ≡ faulty T4 0 }
    ensures no_semicolon { read_rung (codes "XIC(a)OTE(b)") ≡ faulty T4 12 }
    ensures open_fork { read_rung (codes "[XIC(a)") ≡ faulty T3 7 }
    ensures open_parenthesis { read_rung (codes "XIC(a") ≡ faulty T3 5 }
    ensures unknown_mnemonic { read_rung (codes "XIQ(a);") ≡ faulty T2 0 }
    ensures second_parenthesis { read_rung (codes "XIC(a));") ≡ faulty T1 6 }
    ensures after_semicolon { read_rung (codes ";x") ≡ faulty T1 1 }
    ensures seventeenth_fork { read_rung (codes "[[[[[[[[[[[[[[[[[") ≡ faulty T5 16 }
    ensures no_element { read_rung (codes ";") ≡ Ok end }

    ensures blanks { read_rung (codes "xic( a ) [ XIC(b) , ] OTE(c) ;")
        ≡ Ok (ins Xic (codes "a" ∷ []) (fork (ins Xic (codes "b" ∷ []) end) (leg end last) (ins Ote (codes "c" ∷ []) end))) }
    ensures canonical { canon (ins Xic (codes "a" ∷ []) (fork (ins Xic (codes "b" ∷ []) end) (leg end last) (ins Ote (codes "c" ∷ []) end)))
        ≡ codes "XIC(a)[XIC(b),]OTE(c);" }

    ensures mnemonic_at_end { read_rung (codes "XIC") ≡ faulty T3 3 }
    ensures mnemonic_and_blanks_at_end { read_rung (codes "XIC  ") ≡ faulty T3 5 }
    ensures letters_at_end { read_rung (codes "XI") ≡ faulty T2 0 }
    ensures semicolon_in_fork { read_rung (codes "[;") ≡ faulty T1 1 }
    ensures operands_without_comma { read_rung (codes "XIC(a b);") ≡ faulty T1 6 }
    ensures operand_missing { read_rung (codes "XIC(a,);") ≡ faulty T1 6 }
    ensures no_operands { read_rung (codes "XIC();") ≡ Ok (ins Xic [] end) }
    ensures closing_bracket { read_rung (codes "]") ≡ faulty T1 0 }
{}
