// The places of a structure's members.
ghost use Rattle.std.specs.Prelude.{◌≡◌, ◌≤◌, [], option_and_then, slice_get, slice_index_or, IfOk};
ghost use Rattle.spec_base.specs.declared.limits.TheConstants.{MAX_STRUCTURE_BYTES};
ghost use Rattle.lgx_types.specs.Sizing.{end_of};
ghost use Rattle.lgx_types.specs.Tables.{places_from};

use crate::size::size_in;
use crate::sizing::{alignment, round_up};
use lgx_num::{Items, Memory};
use spec_language::{DataType, Member};
use std::alloc::Global;

/// The places of members of these types, in order, by the sizes of the structures.
pub fn places(alloc: Global, types: &[DataType], sizes: &[u32]) -> Result<Items<Member>, Memory>
    requires { end_of sizes.now 0 types.now ≤ MAX_STRUCTURE_BYTES }
    ensures { IfOk result (λ places. places ≡ places_from sizes.now 0 types.now) }
{
    let mut places = Vec::with_capacity(alloc, types.len())?;
    let mut at = 0;
    for k in 0..types.len() {
        let of = types[k];
        let begin = round_up(alignment(of), at);
        places.push(Member { of, at: 8 * begin })?;
        at = begin + size_in(sizes, of);
    }
    Ok(Items::of(places))
}

/// The place of member `number` of structure `i`.
pub fn place_in(places: &[Items<Member>], i: u32, number: Option<u32>) -> Option<Member>
    ensures { result ≡ option_and_then (λ k. slice_get (slice_index_or places.now i []) k) number }
{
    match number {
        Some(k) if (i as usize) < places.len() => {
            places[i as usize].as_slice().get(k as usize).copied()
        }
        _ => None,
    }
}
