//! The language of a project's tags and rungs: layout of types, declared tags, operands and what they name, and rungs whose
//! operands are checked (1756-PM008, 1756-RM003).
#![tactic(auto)]

mod language_laws;
mod names;
mod span;
mod tag;
mod types;

pub use language_laws::{
    checked_is_in_bounds, checking_keeps_outline, forms_are_read, found_is_in_bounds,
    ordered_types_have_no_rings, sizes_are_settled,
};
pub use names::TaskName;
pub use span::TagSpan;
pub use tag::{Found, Scope, TagCode};
pub use types::{Base, DataType, Member, MemberDecl, TypeCode, TypeDecl, TypeFault};
