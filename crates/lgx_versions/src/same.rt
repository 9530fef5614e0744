// Versions copied and compared.
ghost use Rattle.std.specs.Prelude.{◌≡◌, true, IfOk};

use crate::slots::{SLOTS, SlotRoles, Version};
use crate::versions::Versions;
use lgx_num::Memory;
use std::alloc::Global;

/// What lies in a slot once more.
fn slot_again(alloc: Global, slot: &Option<Version>) -> Result<Option<Version>, Memory>
    ensures { IfOk result (λ copy. copy ≡ slot.now) }
{
    match slot {
        None => Ok(None),
        Some(version) => {
            let program = version.program.copied(alloc)?;
            Ok(Some(Version {
                number: version.number,
                program,
            }))
        }
    }
}

/// Whether the same lies in both slots.
fn same_slot(a: &Option<Version>, b: &Option<Version>) -> bool
    ensures { result ≡ true → a.now ≡ b.now }
{
    match (a, b) {
        (None, None) => true,
        (Some(x), Some(y)) => x.number == y.number && x.program.is_same(&y.program),
        _ => false,
    }
}

/// All slots once more.
fn slots_again(
    alloc: Global,
    slots: &[Option<Version>; SLOTS],
) -> Result<[Option<Version>; SLOTS], Memory>
    ensures { IfOk result (λ copy. copy ≡ slots.now) }
{
    let [first, second, third] = slots;
    let first = slot_again(alloc, first)?;
    let second = slot_again(alloc, second)?;
    let third = slot_again(alloc, third)?;
    Ok([first, second, third])
}

/// Whether the same lies in all slots.
fn same_slots(a: &[Option<Version>; SLOTS], b: &[Option<Version>; SLOTS]) -> bool
    ensures { result ≡ true → a.now ≡ b.now }
{
    let [a0, a1, a2] = a;
    let [b0, b1, b2] = b;
    same_slot(a0, b0) && same_slot(a1, b1) && same_slot(a2, b2)
}

/// Whether all lies in the same places.
fn same_places(a: SlotRoles, b: SlotRoles) -> bool
    ensures { result ≡ true → a ≡ b }
{
    a.base == b.base && a.merged == b.merged && a.testing == b.testing && a.held == b.held
}

impl Versions {
    /// The versions once more, each in its slot.
    pub fn copied(&self, alloc: Global) -> Result<Versions, Memory>
        ensures { IfOk result (λ copy. copy ≡ self.now) }
    {
        let slots = slots_again(alloc, &self.slots)?;
        Ok(Versions {
            slots,
            places: self.places,
            newest: self.newest,
        })
    }

    /// Whether the versions are the same, each in the same slot.
    pub fn is_same(&self, other: &Versions) -> bool
        ensures { result ≡ true → self.now ≡ other.now }
    {
        self.newest == other.newest
            && same_places(self.places, other.places)
            && same_slots(&self.slots, &other.slots)
    }
}
