//! Numbers, names and places of the image: the words that every other crate speaks in.
//!
//! A value of a tag is a bit or a signed number of 8, 16 or 32 bits ([`Kind`]). A [`Place`] says where one lies in the image, the
//! list of the bytes of all tags, and an [`Operand`] is what a checked instruction names. What is at a place and what a write makes
//! of an image are the definitions `number` and `write` of `specs/Image.antt`.
#![tactic(auto)]

mod laws;
mod list;
mod memory;
mod name;
mod number;
mod place;
mod text;

pub use laws::{law_of_bytes, law_of_low_bits, law_of_names, law_of_subscripts, law_of_writes};
pub use list::Items;
pub use memory::Memory;
pub use name::{Name, is_name, is_name_byte, same};
pub use number::{Kind, bytes_in, bytes_of, dint_of, fits, store_low};
pub use place::{Block, Flag, Flags, Index, Operand, Path, Place, Steps};
pub use text::split_first;
