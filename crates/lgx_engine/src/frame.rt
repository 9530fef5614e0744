// Where a program scan is in flat code.
use crate::branches::Branches;
use arrayvec::ArrayVec;
use lgx_num::Place;
use spec_base::limits::{MAX_FRAMES, MAX_PARAMETERS};
use spec_scan::Copying;
use std::marker::Model;

/// The MCR zone of a routine in progress.
#[derive(Clone, Copy, Default)]
pub(crate) enum Zone {
    #[default]
    NoZone,
    Enabled,
    Disabled,
}

/// The numbers that a call hands over.
pub(crate) type Inputs = ArrayVec<i32, MAX_PARAMETERS>;

/// The places of the numbers that come back from a call.
pub(crate) type Returns = ArrayVec<Place, MAX_PARAMETERS>;

/// Where a routine in progress is: the place in its code, the condition and the open branches.
#[derive(Drop, Default)]
pub(crate) struct RungState {
    pub(crate) pc: usize,
    pub(crate) on: bool,
    pub(crate) branches: Branches,
}

impl RungState {
    ghost use Rattle.std.specs.Prelude.{◌≡◌};

    /// The state once more.
    #[inline(always)]
    pub(crate) fn again(&self) -> RungState
        ensures { result ≡ self.now }
    {
        RungState {
            pc: self.pc,
            on: self.on,
            branches: self.branches.again(),
        }
    }

    /// Becomes the same as the other.
    #[inline(always)]
    pub(crate) fn copy_from(&mut self, other: &RungState)
        ensures { self.new ≡ other.now }
    {
        self.pc = other.pc;
        self.on = other.on;
        self.branches.copy_from(&other.branches);
    }
}

/// A routine in progress: its number, where it is, its zone, and what its call handed over.
#[derive(Drop, Default)]
pub(crate) struct Frame {
    pub(crate) routine: u32,
    pub(crate) rung: RungState,
    pub(crate) zone: Zone,
    pub(crate) inputs: Inputs,
    pub(crate) returns: Returns,
}

impl Model for Frame {
    ghost use Rattle.lgx_engine.specs.Views.{FrameView, zone_of};

    ghost Value = { FrameView };

    ghost view = { λ f. record { routine = f.routine; pc = f.rung.pc; on = f.rung.on; zone = zone_of f.zone; branches = f.rung.branches; inputs = f.inputs.items; returns = f.returns.items } };
}

/// What a scan gives its instructions: the tick, and whether it is the first scan, which is the flag `S:FS`.
#[derive(Clone, Copy)]
pub(crate) struct ScanContext {
    pub(crate) now: u32,
    pub(crate) first: bool,
}

/// The routines in progress, the innermost last. A place that a routine left keeps what was there until it is taken again.
#[derive(Drop)]
pub(crate) struct Frames {
    pub(crate) slots: [Frame; MAX_FRAMES],
    pub(crate) depth: usize,
}

impl Model for Frames {
    ghost use Rattle.std.specs.Prelude.{List, ◌≡◌, ◌≤◌, length, reverse, take};
    ghost use Rattle.spec_base.specs.declared.limits.TheConstants.{MAX_FRAMES};
    ghost use Rattle.lgx_engine.specs.Views.{FrameView};

    ghost Value = { List FrameView };

    ghost view = { λ f. reverse (take f.depth f.slots) };

    ghost invariant = { λ f. (f.depth ≤ MAX_FRAMES) × (length f.slots ≡ MAX_FRAMES) };
}

/// Where a program scan is: the routines in progress, and the copy in progress. It takes no memory.
#[derive(Drop)]
pub struct Position {
    pub(crate) frames: Frames,
    pub(crate) copying: Option<Copying>,
}

impl Model for Position {
    ghost use Rattle.lgx_engine.specs.Views.{PositionView};

    ghost Value = { PositionView };

    ghost view = { λ p. record { frames = p.frames; copy = p.copying } };
}
