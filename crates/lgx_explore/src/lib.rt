//! A script's journals explored, layer by layer.
//!
//! A layer is all partial journals with a given number of processor steps. A [`Node`] stands for those that led to the same; each
//! layer has nodes for all, so [`explore`] answers for all.
#![tactic(auto)]

mod found;
mod halt;
mod layer;
mod layers;
mod node;
mod progress;

pub use found::Found;
pub use layers::explore;
pub use node::{Next, Node, Stop};
pub use progress::Progress;
