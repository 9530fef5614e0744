//! A history of events that only goes on, and how much of it each thread has seen.
//!
//! One [`History`] knows all events so far. A [`SeenToken`] knows a beginning of them, and may be carried by another thread: when
//! it comes back, the history begins with what it has seen. Neither keeps the events themselves: they exist in proofs alone.
#![tactic(auto)]

mod history;
mod rule;

pub use history::{History, SeenToken};
