// The labels of a routine.
ghost use Rattle.std.specs.Prelude.{◌≡◌, ◌<◌, ◌++◌, ◌∷◌, [], length, option_and_then, option_map, slice_get, IfSome, OnOk};
ghost use Rattle.lgx_rung.specs.Tree.{instructions, legs_of, leg_instructions};
ghost use Rattle.lgx_rung.specs.Elements.{tree_of};
ghost use Rattle.spec_language.specs.Checked.{label_of};
ghost use Rattle.lgx_check.specs.Labels.{label_at, label_place, labels_from, place_after};

use crate::name::label_name;
use lgx_num::{Memory, Name};
use lgx_rung::{Element, Legs, Op, SourceRung, Texts};
use lgx_types::NameIndex;
use std::alloc::Global;
use std::marker::Model;

/// Where an instruction is: its rung, and its number in the rung, in the order of the text.
#[derive(Clone, Copy, PartialEq, Eq, Debug)]
pub(crate) struct LabelPlace {
    pub(crate) rung: u64,
    pub(crate) ins: u32,
}

/// The labels of a routine, in the order of the text, seen as a list of them.
#[derive(Drop)]
pub(crate) struct LabelTable {
    names: NameIndex,
    places: Vec<LabelPlace>,
}

impl Model for LabelTable {
    ghost use Rattle.std.specs.Prelude.{◌≡◌, List, length};
    ghost use Rattle.spec_language.specs.Checked.{Label};
    ghost use Rattle.lgx_check.specs.LabelLists.{labels_at};

    ghost Value = { List Label };

    ghost view = { λ t. labels_at t.names t.places.items };

    ghost invariant = { λ t. length t.names ≡ length t.places.items };
}

/// The place of this number.
fn place_at(places: &[LabelPlace], number: Option<u32>) -> Option<LabelPlace>
    requires { IfSome number (λ i. i < length places.now) }
    ensures { result ≡ option_and_then (slice_get places.now) number }
{
    match number {
        Some(number) => Some(places[number as usize]),
        None => None,
    }
}

impl LabelTable {
    /// No labels.
    pub(crate) fn new(alloc: Global) -> LabelTable
        ensures { result ≡ [] }
    {
        LabelTable {
            names: NameIndex::new(alloc),
            places: Vec::new(alloc),
        }
    }

    /// The place of the first label of a name, in any case.
    pub(crate) fn find(&self, text: &[u8]) -> Option<LabelPlace>
        ensures { result ≡ option_map label_place (label_of self.now text.now) }
    {
        place_at(&self.places, self.names.find(text))
    }

    /// Adds a label after the others.
    #[tactic(auto, using(crate::proofs::Labels::labels_push))]
    fn push(&mut self, name: &Name, place: LabelPlace) -> Result<(), Memory>
        ensures { OnOk result (self.new ≡ self.old ++ label_at name.now place ∷ []) }
    {
        if self.names.len() > u32::MAX as usize {
            return Err(Memory);
        }
        self.places.reserve(1)?;
        self.names.push(name)?;
        let _ = self.places.push(place);
        Ok(())
    }

    /// Adds the labels of a rung or of a leg: each LBL whose single operand is a name counts, in every leg. `next` is the place
    /// of its first instruction, and then of the one after it.
    ///
    /// 4,294,967,296 labels or instructions of a rung have no room.
    #[cycle(labels)]
    pub(crate) fn add_rung(
        &mut self,
        next: &mut LabelPlace,
        rung: &SourceRung,
    ) -> Result<(), Memory>
        ensures labels { OnOk result (self.new ≡ self.old ++ labels_from next.old (instructions rung.now)) }
        ensures next { OnOk result (next.new ≡ place_after (length (instructions rung.now)) next.old) }
    {
        for element in rung.elements() {
            self.add_element(next, element)?;
        }
        Ok(())
    }

    /// Adds the labels of an element.
    #[cycle(labels)]
    fn add_element(&mut self, next: &mut LabelPlace, element: &Element) -> Result<(), Memory>
        ensures labels { OnOk result (self.new ≡ self.old ++ labels_from next.old (instructions (tree_of (element.now ∷ [])))) }
        ensures next { OnOk result (next.new ≡ place_after (length (instructions (tree_of (element.now ∷ [])))) next.old) }
    {
        match element {
            Element::Ins(op, texts) => self.add_instruction(next, *op, texts),
            Element::Fork(legs) => self.add_legs(next, legs),
        }
    }

    /// Adds the labels of a fork's legs.
    #[cycle(labels)]
    fn add_legs(&mut self, next: &mut LabelPlace, legs: &Legs) -> Result<(), Memory>
        ensures labels { OnOk result (self.new ≡ self.old ++ labels_from next.old (leg_instructions (legs_of legs.now))) }
        ensures next { OnOk result (next.new ≡ place_after (length (leg_instructions (legs_of legs.now))) next.old) }
    {
        for leg in legs.as_slice() {
            self.add_rung(next, leg)?;
        }
        Ok(())
    }

    /// Adds the label of an instruction, if it gives one.
    fn add_instruction(
        &mut self,
        next: &mut LabelPlace,
        op: Op,
        texts: &Texts,
    ) -> Result<(), Memory>
        ensures labels { OnOk result (self.new ≡ self.old ++ labels_from next.old (record { op = op; texts = texts.now } ∷ [])) }
        ensures next { OnOk result (next.new ≡ place_after 1 next.old) }
    {
        if let Some(name) = label_name(op, texts) {
            self.push(&name, *next)?;
        }
        next.ins = next.ins.checked_add(1).ok_or(Memory)?;
        Ok(())
    }
}
