// Where a tag lies.
use crate::tag::Scope;

/// A tag's scope, and its bytes in the image: from `start` on, up to `end`.
#[derive(Clone, Copy, PartialEq, Eq, Debug)]
pub struct TagSpan {
    pub scope: Scope,
    pub start: u32,
    pub end: u32,
}
