// The versions of a program.
use crate::slots::{SLOTS, SlotRoles, Version, free_if_unused, free_unused, is_at, version_at};
use lgx_num::Memory;
use lgx_prog::FlatProgram;
use std::marker::Model;

/// The base version of a program, its merged one if edits are accepted, and the one that a scan in progress holds.
pub struct Versions {
    pub(crate) slots: [Option<Version>; SLOTS],
    pub(crate) places: SlotRoles,
    pub(crate) newest: u32,
}

impl Drop for Versions {
    fn drop(self) {
        let Versions {
            slots: _,
            places: _,
            newest: _,
        } = self;
    }
}

impl Model for Versions {
    ghost use Rattle.lgx_versions.specs.View.{VersionsView};

    ghost Value = { VersionsView };

    ghost use Rattle.lgx_versions.specs.Seen.{view_of, AreSlots};

    ghost view = { view_of };

    ghost invariant = { AreSlots };
}

impl Versions {
    ghost use Rattle.std.specs.Prelude.{◌^◌, ◌≡◌, ◌≢◌, ◌+◌, ◌<◌, ℕ, Some, None, Ok, IfSome, IfNone, IsSome, IsNone, IsTrue, IsOkAnd, option_map, slice_index_or};
    ghost use Rattle.lgx_versions.specs.Roles.{only_base, selected, add, select, assemble, cancel, hold, drop_hold};
    ghost use Rattle.lgx_versions.specs.View.{AreSlotsOf, NoneMoves, number_of};

    /// The base alone, with the number 0.
    pub fn new(base: FlatProgram) -> Result<Versions, Memory>
        ensures { IsOkAnd result (λ versions. versions.roles ≡ only_base base) }
    {
        let first = Version {
            number: 0,
            program: base,
        };
        Ok(Versions {
            slots: [Some(first), None, None],
            places: SlotRoles {
                base: 0,
                merged: None,
                testing: false,
                held: None,
            },
            newest: 0,
        })
    }

    /// Makes this the merged version, and answers its number: that of the last accept plus one.
    ///
    /// If the merged version was selected, the new one is. It takes no memory, so it doesn't fail.
    pub fn add(&mut self, merged: FlatProgram) -> Result<u32, Memory>
        requires { self.old.roles.newest + 1 < 2 ^ 32 }
        ensures number { result ≡ Ok (self.old.roles.newest + 1) }
        ensures roles { self.new.roles ≡ add merged self.old.roles }
        ensures slots { NoneMoves self.old.slots self.new.slots }
    {
        let slot = self.places.spare();
        self.newest += 1;
        self.slots[slot] = Some(Version {
            number: self.newest,
            program: merged,
        });
        self.places.merged = Some(slot);
        free_unused(&mut self.slots, &self.places);
        Ok(self.newest)
    }

    /// Selects the merged version, or the base.
    pub fn select(&mut self, merged: bool)
        requires { IsTrue merged → IsSome self.old.roles.merged }
        ensures roles { self.new.roles ≡ select merged self.old.roles }
        ensures slots { self.new.slots ≡ self.old.slots }
    {
        self.places.testing = merged;
    }

    /// Makes the merged version the base, whether it is selected or not.
    pub fn assemble(&mut self)
        requires { IsSome self.old.roles.merged }
        ensures roles { self.new.roles ≡ assemble self.old.roles }
        ensures slots { NoneMoves self.old.slots self.new.slots }
    {
        let merged = self.places.merged.unwrap_or(self.places.base);
        self.places.base = merged;
        self.places.merged = None;
        self.places.testing = false;
        free_unused(&mut self.slots, &self.places);
    }

    /// Lets the merged version go, also if it is selected. If there is none, nothing changes.
    pub fn cancel(&mut self)
        ensures roles { self.new.roles ≡ cancel self.old.roles }
        ensures slots { NoneMoves self.old.slots self.new.slots }
    {
        self.places.merged = None;
        self.places.testing = false;
        free_unused(&mut self.slots, &self.places);
    }

    /// Whether the merged version is tested, and so selected.
    pub fn is_testing(&self) -> bool
        ensures value { result ≡ self.now.roles.testing }
        ensures tested { IsTrue self.now.roles.testing → IsSome self.now.roles.merged }
    {
        self.places.testing
    }

    /// The number of the last accept; 0 before the first.
    pub fn newest(&self) -> u32
        ensures { result ≡ self.now.roles.newest }
    {
        self.newest
    }

    /// The number of the selected version.
    pub fn selected(&self) -> u32
        ensures { result ≡ (selected self.now.roles).number }
    {
        version_at(&self.slots, self.places.selected()).number
    }

    /// The flat code of the selected version.
    pub fn selected_program(&self) -> &FlatProgram
        ensures { result.now ≡ (selected self.now.roles).program }
    {
        &version_at(&self.slots, self.places.selected()).program
    }

    /// Holds the selected version, and answers its number. None may be held.
    pub fn hold(&mut self) -> u32
        requires { IsNone self.old.roles.held }
        ensures number { result ≡ (selected self.old.roles).number }
        ensures roles { self.new.roles ≡ hold self.old.roles }
        ensures slots { self.new.slots ≡ self.old.slots }
    {
        let slot = self.places.selected();
        self.places.held = Some(slot);
        version_at(&self.slots, slot).number
    }

    /// The number of the selected version, if it is the one that is held already. None if another one is held, or none.
    #[inline]
    pub fn held_again(&self) -> Option<u32>
        ensures held { IfSome result (λ n. self.now.roles.held ≡ Some (selected self.now.roles)) }
        ensures number { IfSome result (λ n. n ≡ (selected self.now.roles).number) }
        ensures other { IfNone result (number_of self.now.roles.held ≢ Some (selected self.now.roles).number) }
    {
        let slot = self.places.selected();
        let again = is_at(self.places.held, slot);
        if again {
            Some(version_at(&self.slots, slot).number)
        } else {
            None
        }
    }

    /// The flat code of the held version. None if none is held.
    pub fn held(&self) -> Option<&FlatProgram>
        ensures { option_map (λ p. p.now) result ≡ option_map (λ v. v.program) self.now.roles.held }
    {
        match self.places.held {
            Some(slot) => Some(&version_at(&self.slots, slot).program),
            None => None,
        }
    }

    /// Holds no version any more. If none was held, nothing changes.
    pub fn drop_hold(&mut self)
        ensures roles { self.new.roles ≡ drop_hold self.old.roles }
        ensures slots { NoneMoves self.old.slots self.new.slots }
    {
        let held = self.places.held;
        self.places.held = None;
        free_if_unused(&mut self.slots, &self.places, held);
    }

    /// The number of the version in a slot, from 0 to 2; None if the slot is free.
    pub fn slot(&self, i: u32) -> Option<u32>
        requires { i < 3 }
        ensures number { result ≡ slice_index_or self.now.slots i None }
        ensures slots { AreSlotsOf self.now.roles self.now.slots }
    {
        self.slots[i as usize]
            .as_ref()
            .map(|version| version.number)
    }
}
