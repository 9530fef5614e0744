//! The image: one list of bytes under all tags, with marks of what was written, and hits of what was watched and changed.
//!
//! To contracts an [`Image`] is its bytes, for each grain of `GRAIN` bytes whether it is marked, and for each word of `WORD_BYTES`
//! whether it is watched and whether it is hit. A put marks the grains of its bytes, changed or not; a change (`change`,
//! `change_dint`, `change_bit_at`) leaves a place alone that holds the number already. A watched word is hit when a byte of it
//! changes: so who watches some places learns at once that one may have changed. What is at a place and what a write makes of the
//! bytes are `number` and `write` of `lgx_num`; where operands lie is `bind` of `spec_scan`. `ChangesOnlyMarked` says
//! what every change of an image keeps.
#![tactic(auto)]

mod bit;
mod bytes;
mod grain;
mod hits;
mod image;
mod laws;
pub mod number_sets;
mod operands;
mod same;

pub use bit::Bit;
pub use grain::{GRAIN, grain_of};
pub use hits::{WORD_BYTES, word_of};
pub use image::Image;
pub use laws::{law_of_changes, law_of_marks, law_of_watched};
pub use operands::bind_fixed;
pub use spec_scan::{Arg, Bound};
