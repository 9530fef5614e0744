// Accepted edits, and what they make of a routine.
ghost use Rattle.std.specs.Prelude.{◌≡◌, map};
ghost use Rattle.lgx_edit.specs.Texts.{text_of, merged_of, assembled, cancelled};

use crate::shared::SharedText;
use lgx_rung::SourceRung;

/// What an accepted edit does to a routine. It names a rung by its number in the base, from 0.
#[derive(Drop)]
pub enum RungChange {
    Replace(u32, SourceRung),
    Insert(u32, SourceRung),
    Delete(u32),
}

/// An accepted edit, and the number of its routine.
#[derive(Drop)]
pub struct KeptEdit {
    pub routine: u32,
    pub change: RungChange,
}

/// A routine of the base, and what it is with the accepted edits, if it has any.
#[derive(Drop)]
pub struct EditedRoutine {
    pub base: SharedText,
    pub merged: Option<SharedText>,
}

impl EditedRoutine {
    /// The routine with the accepted edits.
    pub fn merged(&self) -> &SharedText
        ensures { text_of result.now ≡ merged_of self.now }
    {
        match &self.merged {
            Some(merged) => merged,
            None => &self.base,
        }
    }

    /// Makes the merged rungs the base, if there are any.
    fn assemble(&mut self)
        ensures { self.new ≡ assembled self.old }
    {
        if let Some(merged) = self.merged.take() {
            self.base = merged;
        }
    }

    /// Drops the merged rungs.
    fn cancel(&mut self)
        ensures { self.new ≡ cancelled self.old }
    {
        self.merged = None;
    }
}

/// Makes the merged rungs of each routine its base.
pub fn assemble_all(routines: &mut [EditedRoutine])
    ensures { routines.new ≡ map assembled routines.old }
{
    for routine in routines.iter_mut() {
        routine.assemble();
    }
}

/// Drops the merged rungs of each routine.
pub fn cancel_all(routines: &mut [EditedRoutine])
    ensures { routines.new ≡ map cancelled routines.old }
{
    for routine in routines.iter_mut() {
        routine.cancel();
    }
}
