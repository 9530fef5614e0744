// The list of snapshots that a board has published.
ghost use Rattle.std.specs.Prelude.{◌≡◌, ◌≤◌, ◌<◌, ◌-◌, List, [], ◌∷◌, ◌++◌, length, slice_get, IfOk, Some};
ghost use Rattle.spec_board.specs.declared.snapshot.TheConstants.{MAX_SNAPSHOTS};
ghost use Rattle.spec_board.specs.Stories.{with_next};

use left_right::Absorb;
use lgx_num::Memory;
use spec_board::{MAX_SNAPSHOTS, Snapshot};
use std::alloc::{AllocError, Global};
use std::marker::Model;

/// The first snapshots of a story, oldest first, at most [`MAX_SNAPSHOTS`].
pub struct Published {
    list: Vec<Snapshot>,
}

impl Drop for Published {
    fn drop(self) {
        let Published { list: _ } = self;
    }
}

impl Model for Published {
    ghost use Rattle.std.specs.Prelude.{List, ◌≤◌, length, vec_capacity};
    ghost use Rattle.spec_board.specs.declared.snapshot.TheConstants.{MAX_SNAPSHOTS};
    ghost use Rattle.spec_board.specs.declared.snapshot.Snapshot.{Snapshot};

    ghost Value = { List Snapshot };

    ghost view = { λ p. p.list.items };

    ghost invariant = { λ p. (length p.list.items ≤ MAX_SNAPSHOTS) × (MAX_SNAPSHOTS ≤ vec_capacity p.list) };
}

impl Published {
    /// The list of one snapshot, with room for all: some 4 MB. Out of memory is the one fault.
    pub(crate) fn new(alloc: Global, first: Snapshot) -> Result<Published, Memory>
        ensures { IfOk result (λ p. p ≡ first ∷ []) }
    {
        let mut list = Vec::with_capacity(alloc, MAX_SNAPSHOTS)?;
        list.push_reserved(first);
        Ok(Published { list })
    }

    /// The number of snapshots.
    pub fn len(&self) -> u32
        ensures value { result ≡ length self.now }
        ensures room { result ≤ MAX_SNAPSHOTS }
    {
        self.list.len() as u32
    }

    /// Snapshot number `i`, counted from 0.
    pub fn get(&self, i: u32) -> &Snapshot
        requires { i < length self.now }
        ensures { slice_get self.now i ≡ Some result.now }
    {
        &self.list[i as usize]
    }
}

impl Absorb<Snapshot> for Published {
    // In a clause an array is a list of any length, so this type stands for the list alone.
    type State = [Snapshot; 0];

    ghost state = { λ p. p };

    ghost applied = { with_next };

    ghost never_fails = { Unit {0} };

    fn absorb_first(&mut self, operation: &Snapshot, _other: &Published) -> Result<(), AllocError> {
        if self.list.len() < MAX_SNAPSHOTS {
            self.list.push_reserved(operation.copied());
        }
        Ok(())
    }
}
