// The counts of a version's instructions.
ghost use Rattle.std.specs.Prelude.{◌≡◌, ◌<◌, ◌∷◌, ◌++◌, [], List, length, OnOk};
ghost use Rattle.spec_base.specs.declared.limits.TheConstants.{MAX_EVENTS};
ghost use Rattle.lgx_engine.specs.declared.place.Execution.{Execution as Executions};
ghost use Rattle.lgx_cover.specs.Tables.{IsTableOf, grown};

use crate::row::Row;
use crate::version::Version;
use lgx_engine::Execution;
use lgx_num::Memory;
use std::alloc::Global;
use std::marker::Model;

/// The counts of the instructions of a version, routine by routine.
#[derive(Drop)]
pub(crate) struct Table {
    version: Version,
    rows: Vec<Row>,
}

impl Model for Table {
    ghost use Rattle.std.specs.Coded.{codes};
    ghost use Rattle.lgx_cover.specs.TableView.{TableView, table_code};

    ghost Value = { TableView };

    ghost coded = { table_code (Prim.hlevel codes) };

    ghost view = { λ t. record { version = t.version; rows = t.rows.items } };
}

impl Table {
    /// The table of a version of which nothing was executed.
    pub(crate) fn new(alloc: Global, version: Version) -> Table
        ensures version { result.version ≡ version }
        ensures rows { result.rows ≡ [] }
    {
        Table {
            version,
            rows: Vec::new(alloc),
        }
    }

    #[inline(always)]
    pub(crate) fn version(&self) -> Version
        ensures { result ≡ self.now.version }
    {
        self.version
    }

    /// The rows, by routine.
    pub(crate) fn rows(&self) -> &[Row]
        ensures { result.now ≡ self.now.rows }
    {
        &self.rows
    }

    /// Makes sure that a routine has a row.
    #[inline]
    #[tactic(auto, using(crate::proofs::Ends::one_longer, crate::proofs::Ends::grown_to))]
    fn grow(&mut self, alloc: Global, routine: usize) -> Result<(), Memory>
        ensures rows { OnOk result (self.new.rows ≡ grown self.old.rows routine []) }
        ensures has { OnOk result (routine < length self.new.rows) }
        ensures version { self.new.version ≡ self.old.version }
    {
        while self.rows.len() <= routine {
            self.rows.push(Row::new(alloc))?;
        }
        Ok(())
    }

    /// Counts an execution more.
    #[inline]
    pub(crate) fn count(&mut self, alloc: Global, x: Execution) -> Result<(), Memory>
        requires room { (xs : List Executions) × IsTableOf self.old.rows xs × (length xs < MAX_EVENTS) }
        ensures counted { (xs : List Executions) → IsTableOf self.old.rows xs → OnOk result (IsTableOf self.new.rows (xs ++ x ∷ [])) }
        ensures version { self.new.version ≡ self.old.version }
    {
        let routine = x.routine as usize;
        self.grow(alloc, routine)?;
        self.rows[routine].count(x)
    }
}
