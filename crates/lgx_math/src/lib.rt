//! The comparisons and the arithmetic of the ladder language, each a function of its operands and the image.
//!
//! An operand is a number or a place in the image, and its value is a signed number of 32 bits. [`compare`] says whether a
//! comparison holds; [`run_math`] stores a result and sets the task's flags. What each instruction does is `compare` and
//! `math` of `spec_scan`.
#![tactic(auto)]

mod comparison;
mod laws;
mod math;
mod operand;
mod results;

pub use comparison::{compare, holds};
pub use laws::{law_of_masks, law_of_overflow, law_of_quotients};
pub use math::{run_dint_math, run_math, run_math_of};
