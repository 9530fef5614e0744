// Sizes of a drawing: pixels, and numbers of letters and of lanes.
use spec_base::limits::MAX_TASKS;
use spec_machine::limits::MAX_WATCHES;

/// Where the first time is; names are before it.
pub(crate) const LEFT: u64 = 200;

/// From the last time to the edge of the drawing.
pub(crate) const AFTER: u64 = 120;

/// The width of the drawing, if none is asked for.
pub(crate) const PAGE: u16 = 1400;

/// The least width with room for all of the legend.
pub(crate) const HINT_WIDTH: u64 = 1140;

/// How far a begin is from the one before at most, in pixels, if both are of one bar; and how many begins are no bar yet.
pub(crate) const GAP: u32 = 3;

/// Where the first lane begins.
pub(crate) const TOP: u64 = 92;

/// The height of a lane.
pub(crate) const LANE: u64 = 44;

/// Where the least value is in its lane.
pub(crate) const FLOOR: u64 = 38;

/// How far values of a lane are apart at most.
pub(crate) const RISE: u64 = 18;

/// The width of a letter, rounded up.
pub(crate) const LETTER: u64 = 7;

/// The height of the value 0 above the least DINT.
pub(crate) const ZERO: u32 = 2147483648;

/// The letters of a name that is written whole.
pub(crate) const NAME_LETTERS: usize = 25;

/// The letters of a longer name that are written, after two dots.
pub(crate) const CUT_LETTERS: usize = 23;

/// The lanes of a drawing: tasks, watched places that are given and others, faults and replies.
pub(crate) const MAX_LANES: usize = MAX_TASKS + 2 * MAX_WATCHES + 2;

/// The lines down a drawing, at most.
pub(crate) const GRID_LINES: u64 = 11;

/// The times from one line down to the next that are looked at.
pub(crate) const SPACINGS: [u32; 28] = [
    1, 2, 5, 10, 20, 50, 100, 200, 500, 1000, 2000, 5000, 10000, 20000, 50000, 100000, 200000,
    500000, 1000000, 2000000, 5000000, 10000000, 20000000, 50000000, 100000000, 200000000,
    500000000, 1000000000,
];

/// The greatest of them.
pub(crate) const MAX_SPACING: u32 = 1000000000;
