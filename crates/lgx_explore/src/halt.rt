// Why a layer isn't made.
use crate::node::{Next, Stop};
use std::alloc::AllocFailed;

/// Why a layer isn't closed: of the node with this number no other is made, for this reason.
#[derive(Clone, Copy, PartialEq, Eq, Debug)]
pub struct Halt {
    pub at: usize,
    pub stop: Stop,
}

/// Why a node isn't added to a layer.
#[derive(Clone, Copy, PartialEq, Eq, Debug)]
pub(crate) enum Full {
    /// There are as many as there may be.
    Limit,
    Memory,
}

impl<T: Drop> From<AllocFailed<T>> for Full {
    ghost use Rattle.std.specs.Prelude.{◌≡◌};
    ghost use Rattle.lgx_explore.specs.declared.halt.Full.{Full};

    ghost from_gives = { λ _ s. s ≡ Full.Memory };

    fn from(_: AllocFailed<T>) -> Self {
        Full::Memory
    }
}

impl From<Full> for Stop {
    ghost use Rattle.std.specs.Prelude.{◌≡◌};
    ghost use Rattle.lgx_explore.specs.Shown.{stop_of};

    ghost from_gives = { λ full s. s ≡ stop_of full };

    fn from(full: Full) -> Self {
        match full {
            Full::Limit => Stop::Limit,
            Full::Memory => Stop::Memory,
        }
    }
}

/// Why the next layer isn't made.
#[derive(Drop)]
pub(crate) enum Over<N: Drop> {
    /// After the journal that the node keeps and this event, the line of the question with this number holds.
    Shown(N, Next, u32),
    /// It has as many nodes as it may have.
    Limit,
    Memory,
}
