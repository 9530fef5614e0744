// The instructions of rungs, counted down from a limit.
ghost use Rattle.std.specs.Prelude.{◌≡◌, ◌-◌, ◌∷◌, [], length, sum_by, IfOk};
ghost use Rattle.lgx_rung.specs.Tree.{instructions, leg_instructions, legs_of};
ghost use Rattle.lgx_rung.specs.Elements.{tree_of};
ghost use Rattle.lgx_edit.specs.Counting.{rung_count};
ghost use Rattle.lgx_edit.specs.Shared.{sources};

use crate::shared::SharedRung;
use lgx_num::Memory;
use lgx_rung::{Element, Legs, SourceRung};

/// What is left of a number after the instructions of a rung or of a leg are taken from it; 0 if it has more.
///
/// It recurses as deep as forks nest, which is `MAX_FORKS` at most.
#[cycle(left)]
fn left_by_rung(left: u32, rung: &SourceRung) -> u32
    ensures { result ≡ left - length (instructions rung.now) }
{
    let mut left = left;
    for element in rung.elements() {
        left = left_by_element(left, element);
    }
    left
}

/// What is left after an element.
#[cycle(left)]
fn left_by_element(left: u32, element: &Element) -> u32
    ensures { result ≡ left - length (instructions (tree_of (element.now ∷ []))) }
{
    match element {
        Element::Ins(_, _) => left.saturating_sub(1),
        Element::Fork(legs) => left_by_legs(left, legs),
    }
}

/// What is left after the legs of a fork.
#[cycle(left)]
fn left_by_legs(left: u32, legs: &Legs) -> u32
    ensures { result ≡ left - length (leg_instructions (legs_of legs.now)) }
{
    let mut left = left;
    for leg in legs.as_slice() {
        left = left_by_rung(left, leg);
    }
    left
}

/// How many instructions a rung has. 4,294,967,295 have no room.
pub fn count_of(rung: &SourceRung) -> Result<u32, Memory>
    ensures { IfOk result (λ n. n ≡ rung_count rung.now) }
{
    let left = left_by_rung(u32::MAX, rung);
    if left == 0 {
        return Err(Memory);
    }
    Ok(u32::MAX - left)
}

/// What is left of a number after the instructions of all these rungs are taken from it; 0 if they have more.
pub fn left_by_rungs(left: u32, rungs: &[SourceRung]) -> u32
    ensures { result ≡ left - sum_by rung_count rungs.now }
{
    let mut left = left;
    for rung in rungs {
        left = left_by_rung(left, rung);
    }
    left
}

/// The same of rungs of which it is known how many instructions each has.
pub fn left_by_shared(left: u32, rungs: &[SharedRung]) -> u32
    ensures { result ≡ left - sum_by rung_count (sources rungs.now) }
{
    let mut left = left;
    for rung in rungs {
        left = left.saturating_sub(rung.count());
    }
    left
}
