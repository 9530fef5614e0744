// Rungs that are checked to the same wherever they stand.
ghost use Rattle.std.specs.Prelude.{◌≡◌, ◌∷◌, [], not};
ghost use Rattle.std.specs.List.{list_all};
ghost use Rattle.lgx_rung.specs.Elements.{tree_of};
ghost use Rattle.lgx_rung.specs.Tree.{leg_instructions, legs_of};
ghost use Rattle.lgx_check.specs.Known.{is_plain, looks_around};

use lgx_rung::{Element, Legs, Op, SourceRung};

/// Whether what an instruction is checked to depends on the routine's labels or on where it stands.
fn looks_around(op: Op) -> bool
    ensures { result ≡ looks_around op }
{
    matches!(op, Op::Lbl | Op::Jmp | Op::Sbr)
}

/// Whether what a rung is checked to depends on nothing but its own text and the scope: it has no LBL, JMP or SBR.
#[cycle(plain)]
pub fn is_plain(rung: &SourceRung) -> bool
    ensures { result ≡ is_plain rung.now }
{
    for element in rung.elements() {
        if !is_plain_element(element) {
            return false;
        }
    }
    true
}

#[cycle(plain)]
fn is_plain_element(element: &Element) -> bool
    ensures { result ≡ is_plain (tree_of (element.now ∷ [])) }
{
    match element {
        Element::Ins(op, _) => !looks_around(*op),
        Element::Fork(legs) => are_plain_legs(legs),
    }
}

#[cycle(plain)]
fn are_plain_legs(legs: &Legs) -> bool
    ensures { result ≡ list_all (λ i. not (looks_around i.op)) (leg_instructions (legs_of legs.now)) }
{
    for leg in legs.as_slice() {
        if !is_plain(leg) {
            return false;
        }
    }
    true
}
