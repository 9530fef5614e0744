// Programs without edits.
ghost use Rattle.std.specs.Prelude.{◌≡◌, map, IfOk};
ghost use Rattle.lgx_prog.specs.Flat.{IsFlat};
ghost use Rattle.lgx_prog.specs.Search.{AreFlat};
ghost use Rattle.lgx_edit.specs.Texts.{routine_of, base_of, merged_of};
ghost use Rattle.lgx_edit.specs.Shared.{checkeds};

use crate::changes::EditedRoutine;
use crate::shared::SharedRung;
use crate::texts::RoutineText;
use lgx_num::Memory;
use lgx_prog::{FlatRoutine, Joining};
use std::alloc::Global;

/// The flat code of a routine's rungs, put together from that of each.
pub fn joined(alloc: Global, rungs: &[SharedRung]) -> Result<FlatRoutine, Memory>
    ensures { IfOk result (λ flat. IsFlat flat (checkeds rungs.now)) }
{
    let mut joining = Joining::new(alloc, rungs.len())?;
    for rung in rungs {
        joining.add(rung.code())?;
    }
    joining.finish(alloc)
}

/// The flat code of the base of each of these routines.
pub fn flat_routines(alloc: Global, routines: &[EditedRoutine]) -> Result<Vec<FlatRoutine>, Memory>
    ensures { IfOk result (λ flats. AreFlat flats.items (map (λ r. r.checked) (map base_of routines.now))) }
{
    let mut flats = Vec::with_capacity(alloc, routines.len())?;
    for routine in routines {
        let flat = joined(alloc, routine.base.rungs.as_slice())?;
        flats.push(flat)?;
    }
    Ok(flats)
}

/// These routines without edits.
pub fn unedited(alloc: Global, routines: Vec<RoutineText>) -> Result<Vec<EditedRoutine>, Memory>
    ensures base { IfOk result (λ edited. map base_of edited.items ≡ map routine_of routines.items) }
    ensures merged { IfOk result (λ edited. map merged_of edited.items ≡ map routine_of routines.items) }
{
    let mut edited = Vec::with_capacity(alloc, routines.len())?;
    for routine in routines {
        let base = routine.shared(alloc)?;
        edited.push(EditedRoutine { base, merged: None })?;
    }
    Ok(edited)
}
