// The text of a program.
ghost use Rattle.std.specs.Prelude.{◌≡◌, [], ◌∷◌, ◌++◌, IfOk, OnOk};
ghost use Rattle.lgx_edit.specs.Shared.{sources, checkeds};

use crate::shared::{SharedRung, SharedText};
use lgx_num::{Items, Memory, Name};
use lgx_prog::{Rung, Rungs};
use lgx_rung::SourceRung;
use std::alloc::Global;

/// Rungs as they were written.
pub type SourceRungs = Items<SourceRung>;

/// A routine: its rungs as they were written, and the same rungs as they run.
pub struct RoutineText {
    pub name: Name,
    pub source: SourceRungs,
    pub checked: Rungs,
}

impl Drop for RoutineText {
    fn drop(self) {
        let RoutineText {
            name: _,
            source: _,
            checked: _,
        } = self;
    }
}

impl RoutineText {
    ghost use Rattle.std.specs.Prelude.{◌≡◌, IfOk};
    ghost use Rattle.lgx_edit.specs.Texts.{routine_of, text_of};

    /// The routine, whose rungs are shared from now on. Memory also comes if it hasn't as many checked rungs as written ones.
    pub(crate) fn shared(self, alloc: Global) -> Result<SharedText, Memory>
        ensures { IfOk result (λ t. text_of t ≡ routine_of self) }
    {
        let RoutineText {
            name,
            source,
            checked,
        } = self;
        let rungs = shared_rungs(alloc, source.into_vec(), checked.into_vec())?;
        Ok(SharedText {
            name,
            rungs: Items::of(rungs),
        })
    }
}

/// The rungs of a routine, shared from now on. Memory also comes if there aren't as many checked ones as written ones.
fn shared_rungs(
    alloc: Global,
    source: Vec<SourceRung>,
    checked: Vec<Rung>,
) -> Result<Vec<SharedRung>, Memory>
    ensures sources { IfOk result (λ rungs. sources rungs.items ≡ source.items) }
    ensures checked { IfOk result (λ rungs. checkeds rungs.items ≡ checked.items) }
{
    if source.len() != checked.len() {
        return Err(Memory);
    }
    let mut rungs = Vec::with_capacity(alloc, source.len())?;
    let mut others = checked.into_iter();
    for source in source {
        match others.next() {
            Some(checked) => add_rung(alloc, &mut rungs, source, checked)?,
            None => return Err(Memory),
        }
    }
    Ok(rungs)
}

/// Adds a rung, shared from now on.
fn add_rung(
    alloc: Global,
    rungs: &mut Vec<SharedRung>,
    source: SourceRung,
    checked: Rung,
) -> Result<(), Memory>
    ensures { OnOk result (rungs.new.items ≡ rungs.old.items ++ record { source = source; checked = checked } ∷ []) }
{
    let rung = SharedRung::of(alloc, source, checked)?;
    rungs.push(rung)?;
    Ok(())
}

/// The routines of a program.
pub type RoutineTexts = Items<RoutineText>;

/// A program: its routines, and the number of the main one.
#[derive(Drop)]
pub struct ProgramText {
    pub name: Name,
    pub routines: RoutineTexts,
    pub main: u32,
}

/// The programs of a project.
pub type ProgramTexts = Items<ProgramText>;
