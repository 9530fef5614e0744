// What is published to stations, and the rule under which they read it.
use crate::published::Published;
use crossbeam_utils::rule::{Outcome, Protocol};
use spec_board::Snapshot;
use std::marker::PhantomData;

/// A story names one list of snapshots: what a board will have published in the end, and each station sees a part of. It has
/// no calls.
pub trait Story {
    ghost use Rattle.std.specs.Prelude.{List};
    ghost use Rattle.spec_board.specs.declared.snapshot.Snapshot.{Snapshot};

    ghost story: { List Snapshot };
}

/// The rule of what is shared: it is a prefix of the story.
pub(crate) struct Follows<S> {
    story: PhantomData<S>,
}

impl<S: Story> Protocol<Published, ()> for Follows<S> {
    ghost use Rattle.spec_board.specs.Stories.{IsPrefix};

    ghost holds = { λ list _. IsPrefix list S.story };

    ghost first = { tt };
}

/// What is known of a step under the rule: the list before it, and that after it, is a prefix of the story.
pub(crate) struct Finds<S> {
    story: PhantomData<S>,
}

impl<S: Story> Outcome<Published, ()> for Finds<S> {
    ghost use Rattle.spec_board.specs.Stories.{IsPrefix};

    ghost then = { λ _ old new _. IsPrefix old S.story × IsPrefix new S.story };
}
