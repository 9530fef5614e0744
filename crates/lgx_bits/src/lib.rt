//! The bit instructions of ladder logic: XIC, XIO, OTE, OTL, OTU, ONS, OSR, OSF and AFI (1756-RM003).
//!
//! What each does is a case of `bits` of `spec_scan`; [`run_bits`] is all of them.
#![tactic(auto)]

mod bits;
mod operand;

pub use bits::run_bits;
