//! A controller that is talked to: lines of a journal come one by one from a console, and each is answered before the next is asked
//! for, by the report's lines of its events, or by why it wasn't done. A console over a reader and a writer takes lines however long.
//!
//! There is no journal and no log of the whole: only accepted edits take more memory, however long a session is.
#![tactic(auto)]

mod console;
mod followed;
mod laws;
mod piped;
mod reading;
mod refusal;
mod session;
mod turns;

pub use console::{AskFault, Console};
pub use followed::Followed;
pub use laws::law_of_sessions;
pub use piped::Piped;
pub use session::talk;
