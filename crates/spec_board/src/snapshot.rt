// The watched values right after a tick.
ghost use Rattle.std.specs.Prelude.{◌≡◌, ◌≤◌, ◌<◌, List, [], ◌∷◌, ◌++◌, length};
ghost use Rattle.spec_board.specs.declared.snapshot.TheConstants.{MAX_VALUES};

use arrayvec::ArrayVec;
use std::marker::Model;

/// How many values a snapshot has at most.
pub const MAX_VALUES: usize = 256;

/// How many snapshots are published at most: those after them are left out.
pub const MAX_SNAPSHOTS: usize = 4096;

/// The watched values in the order of the watch list, at most [`MAX_VALUES`]. They lie in the value itself: no call takes memory.
#[derive(Drop)]
pub struct Values {
    list: ArrayVec<i32, MAX_VALUES>,
}

impl Model for Values {
    ghost use Rattle.std.specs.Prelude.{List, ℤ, ◌≤◌, length};
    ghost use Rattle.spec_board.specs.declared.snapshot.TheConstants.{MAX_VALUES};

    ghost Value = { List ℤ };

    ghost view = { λ v. v.list.items };

    ghost invariant = { λ v. length v.list.items ≤ MAX_VALUES };
}

impl Values {
    /// These values.
    pub fn of(values: &[i32]) -> Values
        requires { length values.now ≤ MAX_VALUES }
        ensures { result ≡ values.now }
    {
        let mut copy = Values {
            list: ArrayVec::new(),
        };
        for value in values {
            copy.push(*value);
        }
        copy
    }

    /// One more value, after the others.
    fn push(&mut self, value: i32)
        requires { length self.old < MAX_VALUES }
        ensures { self.new ≡ self.old ++ value ∷ [] }
    {
        self.list.push(value);
    }

    /// The values, in their order.
    pub fn as_slice(&self) -> &[i32]
        ensures value { result.now ≡ self.now }
        ensures room { length result.now ≤ MAX_VALUES }
    {
        self.list.as_slice()
    }
}

/// The watched values right after a tick, or those before the first event. It takes no memory, and has some 1,000 bytes.
#[derive(Drop)]
pub struct Snapshot {
    /// The number of the tick, counted from 1; 0 in the opening snapshot.
    pub tick: u32,
    pub values: Values,
}

impl Snapshot {
    /// The same snapshot again.
    pub fn copied(&self) -> Snapshot
        ensures { result ≡ self.now }
    {
        Snapshot {
            tick: self.tick,
            values: Values::of(self.values.as_slice()),
        }
    }
}
