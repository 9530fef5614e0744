// The operands of a checked instruction.
ghost use Rattle.std.specs.Prelude.{◌≡◌, [], ◌∷◌};

use lgx_num::Operand;
use std::alloc::Global;
use std::marker::Model;
use std::slice;

/// The operands of a checked instruction, in order. A single one takes no memory.
pub struct Args {
    list: Few,
}

/// One operand, or a list of others.
#[derive(Drop)]
enum Few {
    One(Operand),
    Others(Vec<Operand>),
}

impl Drop for Args {
    #[inline(always)]
    fn drop(self) {
        let Args { list: _ } = self;
    }
}

impl Model for Args {
    ghost use Rattle.std.specs.Prelude.{List};
    ghost use Rattle.lgx_num.specs.declared.place.Operand.{Operand};
    ghost use Rattle.lgx_rung.specs.ArgLists.{operands_of};

    ghost Value = { List Operand };

    ghost view = { λ a. operands_of a.list };
}

impl Args {
    /// No operands.
    #[inline(always)]
    pub fn none(alloc: Global) -> Args
        ensures { result ≡ [] }
    {
        Args::of(Vec::new(alloc))
    }

    /// One operand.
    #[inline(always)]
    pub fn one(operand: Operand) -> Args
        ensures { result ≡ operand ∷ [] }
    {
        Args {
            list: Few::One(operand),
        }
    }

    /// The operands of a list.
    #[inline(always)]
    pub fn of(operands: Vec<Operand>) -> Args
        ensures { result ≡ operands.items }
    {
        Args {
            list: Few::Others(operands),
        }
    }

    /// The operands, in order.
    #[inline(always)]
    pub fn as_slice(&self) -> &[Operand]
        ensures { result.now ≡ self.now }
    {
        match &self.list {
            Few::One(operand) => slice::from_ref(operand),
            Few::Others(operands) => operands,
        }
    }
}
