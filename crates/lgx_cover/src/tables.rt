// The tables of all versions.
ghost use Rattle.std.specs.Prelude.{◌≡◌, ◌<◌, ◌∷◌, ◌++◌, [], List, ℕ, length, OnOk, IfSome, Some, None, nat_eq, if◌then◌else◌, slice_index_or, true, false};
ghost use Rattle.spec_base.specs.declared.limits.TheConstants.{MAX_EVENTS};
ghost use Rattle.lgx_cover.specs.declared.version.Version.{Version as Versions};
ghost use Rattle.lgx_cover.specs.Executions.{Occurrence, version_in, occurrences};
ghost use Rattle.lgx_cover.specs.Counts.{is_version};
ghost use Rattle.lgx_cover.specs.Tables.{KeepCounts, version_at, versions_of, has};

use crate::growth::grow;
use crate::table::Table;
use crate::version::Version;
use lgx_core::{Executed, What};
use lgx_num::Memory;
use std::alloc::Global;

/// The counts of all versions that programs began with.
#[derive(Drop)]
pub(crate) struct Tables {
    alloc: Global,
    /// One for each version, in the order of their first begins.
    tables: Vec<Table>,
    /// For each program the place of the table of the version that it began with last.
    current: Vec<Option<usize>>,
}

impl Tables {
    /// No program has begun.
    pub(crate) fn new(alloc: Global) -> Tables
        ensures { KeepCounts result [] [] }
    {
        Tables {
            alloc,
            tables: Vec::new(alloc),
            current: Vec::new(alloc),
        }
    }

    /// The tables, in the order of their versions' first begins.
    pub(crate) fn as_slice(&self) -> &[Table]
        ensures { result.now ≡ self.now.tables.items }
    {
        &self.tables
    }

    /// The place of the table of the version that a program began with last; None if it has not begun.
    #[inline(always)]
    fn place_of(&self, program: u32) -> Option<usize>
        ensures { result ≡ slice_index_or self.now.current.items program None }
    {
        match self.current.get(program as usize) {
            Some(place) => *place,
            None => None,
        }
    }

    /// The place of the table of a version; None if there is none.
    #[tactic(auto, using(crate::proofs::Lookups::none_of))]
    fn find(&self, version: Version) -> Option<usize>
        ensures below { IfSome result (λ k. k < length self.now.tables.items) }
        ensures found { IfSome result (λ k. is_version (version_at self.now.tables.items k) version ≡ true) }
        ensures none { result ≡ None → has (versions_of self.now.tables.items) version ≡ false }
    {
        for k in 0..self.tables.len() {
            if self.tables[k].version().is(version) {
                return Some(k);
            }
        }
        None
    }

    /// The table of a program's present version is there.
    fn set_place(&mut self, program: u32, place: usize) -> Result<(), Memory>
        ensures current { OnOk result ((q : ℕ) → slice_index_or self.new.current.items q None ≡ (if nat_eq q program then Some place else slice_index_or self.old.current.items q None)) }
        ensures tables { self.new.tables ≡ self.old.tables }
    {
        grow(&mut self.current, program as usize, None)?;
        self.current[program as usize] = Some(place);
        Ok(())
    }

    /// A program begins with a version.
    #[inline]
    fn begin(&mut self, version: Version) -> Result<(), Memory>
        ensures { (begun : List Versions) (all : List Occurrence) → KeepCounts self.old begun all → OnOk result (KeepCounts self.new (begun ++ version ∷ []) all) }
    {
        match self.find(version) {
            Some(place) => self.set_place(version.program, place),
            None => {
                let place = self.tables.len();
                self.tables.push(Table::new(self.alloc, version))?;
                self.set_place(version.program, place)
            }
        }
    }

    /// Counts an execution more, in the version that its program began with last.
    #[inline]
    fn count_one(&mut self, x: Executed) -> Result<(), Memory>
        requires room { (begun : List Versions) × (all : List Occurrence) × KeepCounts self.old begun all × (length all < MAX_EVENTS) }
        ensures { (begun : List Versions) (all : List Occurrence) → KeepCounts self.old begun all → OnOk result (KeepCounts self.new begun (all ++ occurrences begun (Some x))) }
    {
        match self.place_of(x.program) {
            Some(place) => self.tables[place].count(self.alloc, x.execution),
            None => Ok(()),
        }
    }

    /// Counts what a processor step executed.
    #[inline(always)]
    pub(crate) fn count(&mut self, executed: Option<Executed>) -> Result<(), Memory>
        requires room { (begun : List Versions) × (all : List Occurrence) × KeepCounts self.old begun all × (length all < MAX_EVENTS) }
        ensures { (begun : List Versions) (all : List Occurrence) → KeepCounts self.old begun all → OnOk result (KeepCounts self.new begun (all ++ occurrences begun executed)) }
    {
        match executed {
            Some(x) => self.count_one(x),
            None => Ok(()),
        }
    }

    /// Notes the version that a program begins with, if a processor step reports one.
    #[inline(always)]
    pub(crate) fn note(&mut self, what: What) -> Result<(), Memory>
        ensures { (begun : List Versions) (all : List Occurrence) → KeepCounts self.old begun all → OnOk result (KeepCounts self.new (begun ++ version_in what) all) }
    {
        match what {
            What::Began {
                program,
                version,
                ..
            } => self.begin(Version {
                program,
                number: version,
            }),
            _ => Ok(()),
        }
    }
}
