// Lists that grow when a place is first used.
ghost use Rattle.std.specs.Prelude.{◌≡◌, ◌<◌, length, OnOk};
ghost use Rattle.lgx_cover.specs.Tables.{grown};

use lgx_num::Memory;

/// Makes sure that the list has this place. What is added is `none`.
#[inline]
#[tactic(auto, using(crate::proofs::Ends::grown_already))]
pub(crate) fn grow<T: Copy>(list: &mut Vec<T>, place: usize, none: T) -> Result<(), Memory>
    ensures items { OnOk result (list.new.items ≡ grown list.old.items place none) }
    ensures has { OnOk result (place < length list.new.items) }
{
    if list.len() <= place {
        list.resize(place, none)?;
        list.push(none)?;
    }
    Ok(())
}
