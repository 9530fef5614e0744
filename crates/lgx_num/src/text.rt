// Texts and the marks that part them.
ghost use Rattle.std.specs.Prelude.{◌≡◌, ◌++◌, ◌∷◌, [], false, ◌<◌, length, IsNone, IfSome};
ghost use Rattle.spec_base.specs.Pieces.{pieces, has_byte};

/// What comes before the first byte `mark`, and after it; None if there is none.
#[tactic(auto, using(spec_base::proofs::Splits::pieces_at_mark, spec_base::proofs::Splits::pieces_whole, spec_base::proofs::Splits::cut_at_mark, spec_base::proofs::Splits::clean_before, spec_base::proofs::Splits::clean_whole))]
pub fn split_first(text: &[u8], mark: u8) -> Option<(&[u8], &[u8])>
    ensures some { IfSome result (λ r. pieces mark text.now ≡ r.0.now ∷ pieces mark r.1.now) }
    ensures whole { IfSome result (λ r. text.now ≡ r.0.now ++ mark ∷ r.1.now) }
    ensures clean { IfSome result (λ r. has_byte mark r.0.now ≡ false) }
    ensures shorter { IfSome result (λ r. length r.1.now < length text.now) }
    ensures none { IsNone result → pieces mark text.now ≡ text.now ∷ [] }
    ensures none_clean { IsNone result → has_byte mark text.now ≡ false }
{
    for (i, byte) in text.iter().enumerate() {
        if *byte == mark {
            return Some((&text[..i], &text[i + 1..]));
        }
    }
    None
}
