// Whom a command speaks of: the routine, and the owner of the edits.
ghost use Rattle.std.specs.Prelude.{◌^◌, ◌≡◌, ◌<◌, length, map, IfOk};
ghost use Rattle.std.specs.List.{position_from};
ghost use Rattle.spec_base.specs.FirstCause.{some_or};
ghost use Rattle.lgx_num.specs.Name.{same};
ghost use Rattle.spec_machine.specs.Edits.{unless_same};
ghost use Rattle.spec_machine.specs.declared.reply.EditFault.TheVariants.{E2};
ghost use Rattle.lgx_edit.specs.Texts.{base_of};

use crate::changes::EditedRoutine;
use lgx_num::Name;
use spec_machine::EditFault;

/// The owner of edits, if it is another lane.
pub fn other_owner(owner: Option<u32>, lane: u32) -> Option<u32>
    ensures { result ≡ unless_same lane owner }
{
    match owner {
        Some(other) if other != lane => Some(other),
        _ => None,
    }
}

/// The number of the first routine of this name; case doesn't matter. E2 comes if there is none.
pub fn routine_named(routines: &[EditedRoutine], name: &Name) -> Result<u32, EditFault>
    requires { length routines.now < 2 ^ 32 }
    ensures named { result ≡ some_or (position_from (λ r. same r.name name.now) 0 (map base_of routines.now)) E2 }
    ensures within { IfOk result (λ r. r < length routines.now) }
{
    for (n, routine) in routines.iter().enumerate() {
        if routine.base.name.same(name) {
            return Ok(n as u32);
        }
    }
    Err(EditFault::E2)
}
