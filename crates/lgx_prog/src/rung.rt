// Checked rungs.
use lgx_num::Items;
use lgx_rung::Ins;
use std::marker::Model;

/// An instruction with its checked operands, or a fork (a branch) of legs.
#[cycle(rung)]
#[derive(Drop)]
pub enum Node {
    Ins(Ins),
    Fork(Legs),
}

/// The legs of a fork: one or more.
#[cycle(rung)]
#[derive(Drop)]
pub struct Legs {
    pub(crate) legs: Vec<Rung>,
}

/// A checked rung, or a leg of one, in which at most `MAX_FORKS` forks nest.
#[cycle(rung)]
#[derive(Drop)]
pub struct Rung {
    pub(crate) nodes: Vec<Node>,
}

/// The rungs of a routine.
pub type Rungs = Items<Rung>;

impl Model for Legs {
    ghost use Rattle.std.specs.Prelude.{List, ◌<◌, length};
    ghost use Rattle.std.specs.Coded.{codes, coded_list};
    ghost use Rattle.lgx_rung.specs.Tree.{Tree};
    ghost use Rattle.lgx_rung.specs.Coding.{coded_tree};
    ghost use Rattle.lgx_rung.specs.declared.ins.Ins.{Ins};
    ghost use Rattle.lgx_rung.specs.Sizes.{list_size, legs_fall};

    ghost Value = { List (Tree Ins) };

    ghost coded = { coded_list (coded_tree (Prim.hlevel codes)) };

    ghost view = { λ l. l.legs.items };

    ghost invariant = { λ l. 0 < length l.legs.items };

    ghost use Rattle.std.proofs.Common.{arith};

    ghost size = { list_size };

    ghost size_decreases = { λ l h. omega (arith, legs_fall l.legs.items) };
}

impl Model for Rung {
    ghost use Rattle.std.specs.Prelude.{◌≤◌};
    ghost use Rattle.std.specs.Coded.{codes};
    ghost use Rattle.spec_base.specs.declared.limits.TheConstants.{MAX_FORKS};
    ghost use Rattle.lgx_rung.specs.Tree.{Tree, depth};
    ghost use Rattle.lgx_rung.specs.Coding.{coded_tree};
    ghost use Rattle.lgx_rung.specs.Sizes.{tree_size};
    ghost use Rattle.lgx_rung.specs.declared.ins.Ins.{Ins};

    ghost Value = { Tree Ins };

    ghost coded = { coded_tree (Prim.hlevel codes) };

    ghost use Rattle.lgx_prog.specs.Nodes.{tree_of};

    ghost view = { λ r. tree_of r.nodes.items };

    ghost invariant = { λ r. depth (tree_of r.nodes.items) ≤ MAX_FORKS };

    ghost use Rattle.std.proofs.Common.{arith};

    ghost size = { tree_size };

    ghost use Rattle.lgx_prog.specs.NodesFall.{nodes_fall};

    ghost size_decreases = { λ r h. omega (arith, nodes_fall r.nodes.items) };
}

impl Legs {
    ghost use Rattle.std.specs.Prelude.{◌≡◌, ◌<◌, length};

    /// The legs of a fork, from top to bottom. There must be one at least.
    pub fn of(legs: Vec<Rung>) -> Legs
        requires { 0 < length legs.items }
        ensures { result ≡ legs.items }
    {
        Legs { legs }
    }

    /// The legs from top to bottom.
    pub fn as_slice(&self) -> &[Rung]
        ensures legs { result.now ≡ self.now }
        ensures at_least_one { 0 < length self.now }
    {
        &self.legs
    }
}

impl Rung {
    ghost use Rattle.std.specs.Prelude.{◌≡◌, ◌≤◌};
    ghost use Rattle.spec_base.specs.declared.limits.TheConstants.{MAX_FORKS};
    ghost use Rattle.lgx_rung.specs.Tree.{depth};
    ghost use Rattle.lgx_prog.specs.Nodes.{tree_of};

    /// The rung of these elements, in the order of the text. At most `MAX_FORKS` forks may nest.
    pub fn of(nodes: Vec<Node>) -> Rung
        requires { depth (tree_of nodes.items) ≤ MAX_FORKS }
        ensures { result ≡ tree_of nodes.items }
    {
        Rung { nodes }
    }

    /// Its elements in the order of the text.
    pub fn nodes(&self) -> &[Node]
        ensures nodes { tree_of result.now ≡ self.now }
        ensures nested { depth self.now ≤ MAX_FORKS }
    {
        &self.nodes
    }
}
