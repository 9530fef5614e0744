//! A produced and a consumed tag: packets that are numbered as they are sent, and of which only a newer one is taken; the text of a
//! link script; and two controllers that run as it says with such a tag between them, and the text of what they do.
#![tactic(auto)]

mod consumer;
mod error;
mod events;
mod header;
mod lines;
mod packet;
mod producer;
mod read;
mod reader;
mod running;
mod whole;

pub use consumer::{Consumer, Taken};
pub use error::LinkError;
pub use header::connection_words;
pub use packet::{MAX_WORDS, Packet, Words};
pub use producer::Producer;
pub use read::read_link;
pub use whole::link_text;
