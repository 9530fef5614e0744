//! Tags and aliases: declaring them, laying the tags out in the image, and finding what an operand's text names.
//!
//! A [`TagTable`] takes the declarations one by one, is sealed, and then resolves texts: a tag stands for itself, an
//! alias for what its target names in the alias's own scope, and a program's own names hide the controller's. What a
//! text names is the definition `found` of `spec_language`.
#![tactic(auto)]

pub mod data_type;
mod declared;
mod entry;
mod error;
mod form;
mod key;
mod layout;
mod near;
mod part;
mod resolve;
mod same;
mod seal;
mod spelled;
mod subscript;
mod table;
mod tag_name;

pub use error::{SealError, TagError};
pub use spec_language::{Found, Scope, TagCode, TagSpan};
pub use table::TagTable;
