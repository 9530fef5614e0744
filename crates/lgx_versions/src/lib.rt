//! The versions of a program while its rungs are edited online (1756-PM008): which flat programs are kept of it, which
//! of them is selected, and which one a scan in progress holds.
//!
//! At most three are kept: the base, the merged one, and the held one if it is neither of both. Each lies in a slot, and
//! stays in it as long as it is kept: no call moves a program or copies it.
#![tactic(auto)]

mod same;
mod slots;
mod versions;

pub use versions::Versions;
