// How much there is of what the texts name; drawn numbers of names lie below.

/// The tags of each of the names `a` and `n`.
pub(crate) const TAGS: u32 = 16;

/// The timers, and as many counters.
pub(crate) const TIMERS: u32 = 4;

/// The words of the connection.
pub(crate) const WORDS: u32 = 4;

pub(crate) const PROGRAMS: u32 = 4;

/// The rungs of a program.
pub(crate) const RUNGS: u32 = 32;

/// The rounds of the journal.
pub(crate) const ROUNDS: u32 = 2000;
