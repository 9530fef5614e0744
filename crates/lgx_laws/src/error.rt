// The laws by their names, and a breach of one.
ghost use Rattle.std.specs.Prelude.{◌≡◌};

use lgx_num::Memory;

/// The laws, from the one that is reported first.
#[derive(Clone, Copy)]
pub enum Law {
    /// While a task has a region or a CPS open, no other steps.
    Regions,
    /// A copy that was started goes on, an element a step, to its end.
    Copies,
    /// A tick reports the first task that has been up as long as its watchdog.
    Watchdogs,
    /// A tick releases the tasks that are due.
    Releases,
    /// The change to Run releases the continuous task, an input's word an event task, and no other action any.
    Starts,
    /// An EVENT overlaps exactly if its task is up.
    Triggers,
    /// A task's step begins its next program, or is of the one that it has begun.
    Scans,
    /// `run`, `program` and `clear` are done exactly in the mode that each leads from, unless a CPS is open.
    Modes,
    /// The lane that owns a program's edits is answered as they stand, and any other is refused.
    Edits,
    /// The accepts of a program are numbered from 1.
    Numbers,
}

/// A breach of a law, or out of memory.
#[derive(Clone, Copy)]
pub enum LawError {
    /// The first law that is broken with the first event that breaks one, counted from 0.
    Breach { law: Law, at: u64 },
    Memory,
}

impl From<Memory> for LawError {
    ghost use Rattle.lgx_laws.specs.declared.error.LawError.TheVariants as judging;

    ghost from_gives = { λ _ e. e ≡ judging.Memory };

    fn from(_: Memory) -> Self {
        LawError::Memory
    }
}
