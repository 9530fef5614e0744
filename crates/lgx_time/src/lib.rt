//! Timers and counters: TON, RTO, TOF, CTU, CTD and RES (1756-RM003, timer and counter instructions).
//!
//! A timer or a counter is a part of the image: a word of status bits, the preset and the accumulator, and after them a
//! timer's tick of the last count (profile). Each call is the row of its instruction in `spec_scan`: `timer`, `counter` and
//! `reset`. It takes no memory. The numbers `at` count bytes, and times are in ticks.
#![tactic(auto)]

mod counters;
mod timers;
pub mod words;

pub use counters::run_counter;
pub use timers::{Negative, run_timer};
pub use words::reset;
