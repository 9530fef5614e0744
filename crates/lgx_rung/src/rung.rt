// Rungs of source text.
use crate::op::Op;
use crate::texts::Texts;
use lgx_num::Memory;
use std::alloc::Global;
use std::marker::Model;

/// An instruction with its operand texts, or a fork (a branch) of legs.
#[cycle(rung)]
#[derive(Drop)]
pub enum Element {
    Ins(Op, Texts),
    Fork(Legs),
}

/// The legs of a fork: one or more.
#[cycle(rung)]
#[derive(Drop)]
pub struct Legs {
    legs: Vec<SourceRung>,
}

/// A rung, or a leg of one.
#[cycle(rung)]
#[derive(Drop)]
pub struct SourceRung {
    elements: Vec<Element>,
}

impl Model for Legs {
    ghost use Rattle.std.specs.Prelude.{List, ◌<◌, length};
    ghost use Rattle.std.specs.Coded.{codes, coded_list};
    ghost use Rattle.lgx_rung.specs.Tree.{Source};
    ghost use Rattle.lgx_rung.specs.Coding.{coded_tree};
    ghost use Rattle.lgx_rung.specs.Sizes.{list_size, legs_fall};

    ghost Value = { List Source };

    ghost coded = { coded_list (coded_tree (Prim.hlevel codes)) };

    ghost view = { λ l. l.legs.items };

    ghost invariant = { λ l. 0 < length l.legs.items };

    ghost use Rattle.std.proofs.Common.{arith};

    ghost size = { list_size };

    ghost size_decreases = { λ l h. omega (arith, legs_fall l.legs.items) };
}

impl Model for SourceRung {
    ghost use Rattle.std.specs.Coded.{codes};
    ghost use Rattle.lgx_rung.specs.Tree.{Source};
    ghost use Rattle.lgx_rung.specs.Coding.{coded_tree};
    ghost use Rattle.lgx_rung.specs.Sizes.{tree_size};
    ghost use Rattle.lgx_rung.specs.Text.{IsSourceRung};

    ghost Value = { Source };

    ghost coded = { coded_tree (Prim.hlevel codes) };

    ghost use Rattle.lgx_rung.specs.Elements.{tree_of};

    ghost view = { λ r. tree_of r.elements.items };

    ghost invariant = { λ r. IsSourceRung (tree_of r.elements.items) };

    ghost use Rattle.std.proofs.Common.{arith};

    ghost size = { tree_size };

    ghost use Rattle.lgx_rung.specs.ElementsFall.{elements_fall};

    ghost size_decreases = { λ r h. omega (arith, elements_fall r.elements.items) };
}

impl Element {
    ghost use Rattle.std.specs.Prelude.{◌≡◌, IfOk};

    /// The same element again, in memory of its own.
    #[cycle(copies)]
    pub fn copied(&self, alloc: Global) -> Result<Element, Memory>
        ensures { IfOk result (λ element. element ≡ self.now) }
    {
        match self {
            Element::Ins(op, texts) => Ok(Element::Ins(*op, texts.copied(alloc)?)),
            Element::Fork(legs) => Ok(Element::Fork(legs.copied(alloc)?)),
        }
    }
}

impl Legs {
    ghost use Rattle.std.specs.Prelude.{◌≡◌, ◌<◌, length, IfOk};

    pub fn as_slice(&self) -> &[SourceRung]
        ensures legs { result.now ≡ self.now }
        ensures at_least_one { 0 < length self.now }
    {
        &self.legs
    }

    /// The same legs again, in memory of their own.
    #[cycle(copies)]
    pub fn copied(&self, alloc: Global) -> Result<Legs, Memory>
        ensures { IfOk result (λ legs. legs ≡ self.now) }
    {
        let mut legs = Vec::with_capacity(alloc, self.legs.len())?;
        for leg in &self.legs {
            legs.push(leg.copied(alloc)?)?;
        }
        Ok(Legs { legs })
    }
}

impl SourceRung {
    ghost use Rattle.std.specs.Prelude.{◌≡◌, [], ◌∷◌, ◌++◌, IfOk, OnOk, OnErr};
    ghost use Rattle.lgx_rung.specs.Tree.{end, one, append};
    ghost use Rattle.lgx_rung.specs.Text.{IsSourceRung};
    ghost use Rattle.lgx_rung.specs.Elements.{tree_of};

    /// A rung without elements.
    pub fn new(alloc: Global) -> Self
        ensures { result ≡ end }
    {
        SourceRung {
            elements: Vec::new(alloc),
        }
    }

    /// A rung without elements, with room for `count` of them.
    pub fn with_room(alloc: Global, count: usize) -> Result<Self, Memory>
        ensures { IfOk result (λ rung. rung ≡ end) }
    {
        Ok(SourceRung {
            elements: Vec::with_capacity(alloc, count)?,
        })
    }

    /// Its elements in the order of the text.
    pub fn elements(&self) -> &[Element]
        ensures elements { tree_of result.now ≡ self.now }
        ensures source { IsSourceRung self.now }
    {
        &self.elements
    }

    /// Tells what the type keeps, as [`Texts::tell`] does.
    fn tell(&self)
        ensures { IsSourceRung self.now }
    {
        let _ = &self.elements;
    }

    /// The same rung again, in memory of its own.
    #[cycle(copies)]
    pub fn copied(&self, alloc: Global) -> Result<SourceRung, Memory>
        ensures { IfOk result (λ rung. rung ≡ self.now) }
    {
        let mut elements = Vec::with_capacity(alloc, self.elements.len())?;
        for element in &self.elements {
            elements.push(element.copied(alloc)?)?;
        }
        Ok(SourceRung { elements })
    }

    /// Adds an instruction after the other elements.
    pub fn push(&mut self, op: Op, texts: Texts) -> Result<(), Memory>
        ensures added { OnOk result (self.new ≡ append self.old (one (record { op = op; texts = texts }) end)) }
        ensures unchanged { OnErr result (self.new ≡ self.old) }
    {
        texts.tell();
        self.elements.push(Element::Ins(op, texts))?;
        Ok(())
    }
}

/// A fork whose bracket is open, while a rung is read: the leg before it and the legs that are finished.
#[derive(Drop)]
pub struct OpenFork {
    before: SourceRung,
    legs: Vec<SourceRung>,
}

impl Model for OpenFork {
    ghost use Rattle.std.specs.Prelude.{IsTrue};
    ghost use Rattle.std.specs.List.{list_all};
    ghost use Rattle.std.specs.Coded.{codes};
    ghost use Rattle.lgx_rung.specs.ForkCode.{fork_code};
    ghost use Rattle.lgx_rung.specs.Text.{has_operands};
    ghost use Rattle.lgx_rung.specs.Tokens.{Fork};

    ghost Value = { Fork };

    ghost coded = { fork_code (Prim.hlevel codes) };

    ghost view = { λ f. record { before = f.before; legs = f.legs.items } };

    ghost invariant = { λ f. IsTrue (list_all has_operands f.legs.items) };
}

impl OpenFork {
    ghost use Rattle.spec_base.specs.declared.limits.TheConstants.{MAX_FORKS};
    ghost use Rattle.std.specs.Prelude.{◌≡◌, ◌≤◌, [], ◌∷◌, ◌++◌, IfOk, OnOk, OnErr};
    ghost use Rattle.lgx_rung.specs.Tree.{end, append, depth, fork_of};

    /// A fork that opens after a leg's elements.
    pub fn new(alloc: Global, before: SourceRung) -> Self
        ensures { result ≡ record { before = before; legs = [] } }
    {
        OpenFork {
            before,
            legs: Vec::new(alloc),
        }
    }

    /// Finishes a leg; another follows.
    pub fn next_leg(&mut self, leg: SourceRung) -> Result<(), Memory>
        ensures added { OnOk result (self.new ≡ record self.old { legs = self.old.legs ++ leg ∷ [] }) }
        ensures unchanged { OnErr result (self.new ≡ self.old) }
    {
        leg.tell();
        self.legs.push(leg)?;
        Ok(())
    }

    /// Finishes the last leg: the leg before the fork, with the fork after its elements.
    pub fn close(self, last: SourceRung) -> Result<SourceRung, Memory>
        requires nested { depth (append self.before (fork_of (self.legs ++ last ∷ []) end)) ≤ MAX_FORKS }
        ensures { IfOk result (λ r. r ≡ append self.before (fork_of (self.legs ++ last ∷ []) end)) }
    {
        last.tell();
        let OpenFork { before, mut legs } = self;
        legs.push(last)?;
        let SourceRung { mut elements } = before;
        elements.push(Element::Fork(Legs { legs }))?;
        Ok(SourceRung { elements })
    }
}
