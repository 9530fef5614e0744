// The counts of a routine's instructions.
ghost use Rattle.std.specs.Prelude.{◌≡◌, ◌+◌, ◌^◌, ◌<◌, ◌∷◌, ◌++◌, [], List, length, OnOk};
ghost use Rattle.spec_base.specs.declared.limits.TheConstants.{MAX_EVENTS};
ghost use Rattle.lgx_engine.specs.declared.place.Execution.{Execution as Executions};
ghost use Rattle.lgx_cover.specs.Counts.{one_more};
ghost use Rattle.lgx_cover.specs.Tables.{IsRowOf};

use crate::growth::grow;
use lgx_engine::Execution;
use lgx_num::Memory;
use std::alloc::Global;
use std::marker::Model;

/// How often an instruction was executed with a true condition, and how often with a false one.
#[derive(Clone, Copy)]
pub(crate) struct Counts {
    pub with_true: u32,
    pub with_false: u32,
}

impl Counts {
    /// With an execution more, by its condition.
    #[inline(always)]
    fn one_more(self, on: bool) -> Counts
        requires { (self.with_true + 1 < 2 ^ 32) × (self.with_false + 1 < 2 ^ 32) }
        ensures { result ≡ one_more self on }
    {
        if on {
            Counts {
                with_true: self.with_true + 1,
                with_false: self.with_false,
            }
        } else {
            Counts {
                with_true: self.with_true,
                with_false: self.with_false + 1,
            }
        }
    }
}

/// The counts of an instruction that was never executed.
const NO_COUNTS: Counts = Counts {
    with_true: 0,
    with_false: 0,
};

/// The counts of a routine's instructions, by how many pieces of flat code the routine has left from the instruction on.
#[derive(Drop)]
pub(crate) struct Row {
    counts: Vec<Counts>,
}

impl Model for Row {
    ghost use Rattle.std.specs.Prelude.{List};
    ghost use Rattle.lgx_cover.specs.declared.row.Counts.{Counts};

    ghost Value = { List Counts };

    ghost view = { λ r. r.counts.items };
}

impl Row {
    /// A row of no instruction yet.
    pub(crate) fn new(alloc: Global) -> Row
        ensures { result ≡ [] }
    {
        Row {
            counts: Vec::new(alloc),
        }
    }

    /// The counts, by place.
    pub(crate) fn as_slice(&self) -> &[Counts]
        ensures { result.now ≡ self.now }
    {
        &self.counts
    }

    /// Counts an execution more.
    #[inline]
    pub(crate) fn count(&mut self, x: Execution) -> Result<(), Memory>
        requires room { (xs : List Executions) × IsRowOf self.old xs × (length xs < MAX_EVENTS) }
        ensures { (xs : List Executions) → IsRowOf self.old xs → OnOk result (IsRowOf self.new (xs ++ x ∷ [])) }
    {
        grow(&mut self.counts, x.left, NO_COUNTS)?;
        let counts = self.counts[x.left];
        self.counts[x.left] = counts.one_more(x.on);
        Ok(())
    }
}
