//! What an instruction writes beside: which bytes of the image it leaves as they are; and so, which event may change a tag. Laws over
//! the definitions alone.
#![tactic(auto)]

mod laws;

pub use laws::{
    changes_have_writers, copies_write_beside, operands_lie_in_tags, prescan_writes_beside,
    rows_write_beside, scans_keep_frames,
};
