//! What an instruction reads: nothing but the operands that the cross reference counts. A law over the definitions alone.
#![tactic(auto)]

mod laws;

pub use laws::{others_read_nothing, rows_read_readers};
