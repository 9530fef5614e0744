// A walk over a rung, instruction by instruction.
ghost use Rattle.std.specs.Prelude.{◌≡◌, ◌∷◌, [], false, true, length, OnOk};
ghost use Rattle.lgx_rung.specs.Elements.{tree_of as source_tree};
ghost use Rattle.lgx_rung.specs.Tree.{instructions, leg_instructions, legs_of};
ghost use Rattle.lgx_prog.specs.Nodes.{tree_of};
ghost use Rattle.spec_language.specs.Checked.{checked_legs, checked_tree};
ghost use Rattle.lgx_check.specs.Answers.{AnswersCheck, AnswersAs};
ghost use Rattle.lgx_check.specs.Checkers.{IsReady, check_of};
ghost use Rattle.lgx_check.specs.Spots.{IsWithin, place_after, spot_at};
ghost use Rattle.lgx_check.specs.Trees.{node_tree};

use crate::checker::Checker;
use crate::error::CheckError;
use crate::spot::{InstructionPlace, Spot};
use lgx_prog::{Legs, Node, Rung};
use lgx_rung::{Element, Legs as SourceLegs, SourceRung};

impl Checker<'_> {
    /// A rung or a leg with its operands checked. `place` is that of its first instruction, and then of the one after it;
    /// the first element `leads` if this is a rung.
    #[cycle(walk)]
    pub(crate) fn check_rung(
        &self,
        place: &mut InstructionPlace,
        leads: bool,
        rung: &SourceRung,
    ) -> Result<Rung, CheckError>
        requires ready { IsReady self.now }
        requires within { IsWithin place.old }
        ensures answer { AnswersCheck (checked_tree (check_of self.now) (spot_at leads place.old) rung.now) result }
        ensures place { OnOk result (place.new ≡ place_after (length (instructions rung.now)) place.old) }
        ensures within { OnOk result (IsWithin place.new) }
    {
        let mut nodes = Vec::with_capacity(self.alloc, rung.elements().len())?;
        let mut first = leads;
        for element in rung.elements() {
            let node = self.check_element(place, first, element)?;
            nodes.push(node)?;
            first = false;
        }
        Ok(Rung::of(nodes))
    }

    /// An instruction or a fork with its operands checked.
    #[cycle(walk)]
    fn check_element(
        &self,
        place: &mut InstructionPlace,
        leads: bool,
        element: &Element,
    ) -> Result<Node, CheckError>
        requires ready { IsReady self.now }
        requires within { IsWithin place.old }
        ensures answer { AnswersAs node_tree (checked_tree (check_of self.now) (spot_at leads place.old) (source_tree (element.now ∷ []))) result }
        ensures place { OnOk result (place.new ≡ place_after (length (instructions (source_tree (element.now ∷ [])))) place.old) }
        ensures within { OnOk result (IsWithin place.new) }
    {
        match element {
            Element::Ins(op, texts) => {
                let spot = Spot {
                    place: *place,
                    leads,
                };
                let ins = self.check_instruction(spot, *op, texts)?;
                place.advance();
                Ok(Node::Ins(ins))
            }
            Element::Fork(legs) => {
                let legs = self.check_legs(place, legs)?;
                Ok(Node::Fork(legs))
            }
        }
    }

    /// The legs of a fork with their operands checked.
    #[cycle(walk)]
    fn check_legs(
        &self,
        place: &mut InstructionPlace,
        legs: &SourceLegs,
    ) -> Result<Legs, CheckError>
        requires ready { IsReady self.now }
        requires within { IsWithin place.old }
        ensures answer { AnswersAs legs_of (checked_legs (check_of self.now) (spot_at false place.old) (legs_of legs.now)) result }
        ensures place { OnOk result (place.new ≡ place_after (length (leg_instructions (legs_of legs.now))) place.old) }
        ensures within { OnOk result (IsWithin place.new) }
    {
        let mut made = Vec::with_capacity(self.alloc, legs.as_slice().len())?;
        for leg in legs.as_slice() {
            let checked = self.check_rung(place, false, leg)?;
            made.push(checked)?;
        }
        Ok(Legs::of(made))
    }
}
