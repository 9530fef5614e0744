// The slots in which versions lie, and which of them hold the base, the merged and the held one.
ghost use Rattle.std.specs.Prelude.{◌≡◌, ◌≢◌, ◌<◌, ℕ, true, Some, None, length, is_some, IfSome, IsSome, slice_index_or};
ghost use Rattle.lgx_versions.specs.Slots.{version_at, selected_place, is_at, in_slot, uses, HasFreed};

use lgx_prog::FlatProgram;

/// How many programs may be kept.
pub const SLOTS: usize = 3;

/// A program, and its number.
#[derive(Drop)]
pub struct Version {
    pub number: u32,
    pub program: FlatProgram,
}

/// In which slots the base, the merged and the held program lie, and whether the merged one is selected.
#[derive(Clone, Copy)]
pub struct SlotRoles {
    pub base: usize,
    pub merged: Option<usize>,
    pub testing: bool,
    pub held: Option<usize>,
}

impl SlotRoles {
    /// The slot of the selected program.
    #[inline]
    pub fn selected(&self) -> usize
        ensures { result ≡ selected_place self.now }
    {
        match self.merged {
            Some(slot) if self.testing => slot,
            _ => self.base,
        }
    }

    /// Whether a program that is to be kept lies in this slot.
    fn uses(&self, slot: usize) -> bool
        ensures { result ≡ uses self.now slot }
    {
        slot == self.base || is_at(self.merged, slot) || is_at(self.held, slot)
    }

    /// A slot in which neither the base nor the held program lies.
    pub fn spare(&self) -> usize
        ensures slot { result < SLOTS }
        ensures base { result ≡ self.now.base → ⊥ }
        ensures held { self.now.held ≡ Some result → ⊥ }
    {
        let taken = |slot| slot == self.base || is_at(self.held, slot);
        if !taken(0) {
            0
        } else if !taken(1) {
            1
        } else {
            2
        }
    }
}

/// Whether this is that slot.
#[inline(always)]
pub fn is_at(place: Option<usize>, slot: usize) -> bool
    ensures { result ≡ is_at place slot }
{
    place == Some(slot)
}

/// The version in a slot that isn't free.
#[inline]
pub fn version_at(slots: &[Option<Version>; SLOTS], slot: usize) -> &Version
    requires { IsSome (slice_index_or slots.now slot None) }
    ensures { result.now ≡ version_at slots.now slot }
{
    match slots.get(slot) {
        Some(Some(version)) => version,
        _ => unreachable!(),
    }
}

/// Frees the slots in which no program lies that is to be kept.
pub fn free_unused(slots: &mut [Option<Version>; SLOTS], places: &SlotRoles)
    ensures freed { HasFreed places.now slots.old slots.new }
    ensures count { length slots.new ≡ length slots.old }
{
    for (i, slot) in slots.iter_mut().enumerate() {
        if !places.uses(i) {
            *slot = None;
        }
    }
}

/// Frees this slot, if no program lies in it that is to be kept. Only in this one may such a program lie.
#[inline]
pub fn free_if_unused(slots: &mut [Option<Version>; SLOTS], places: &SlotRoles, slot: Option<usize>)
    requires within { IfSome slot (λ i. i < length slots.old) }
    requires others { (i : ℕ) → slot ≢ Some i → is_some (in_slot slots.old i) ≡ true → uses places.now i ≡ true }
    ensures freed { HasFreed places.now slots.old slots.new }
    ensures count { length slots.new ≡ length slots.old }
{
    match slot {
        Some(slot) if !places.uses(slot) => slots[slot] = None,
        _ => {}
    }
}
