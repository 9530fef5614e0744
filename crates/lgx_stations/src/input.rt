// What a run that stations see is made of: its project and its journal.
use lgx_hmi::Story;
use std::marker::{Brand, PhantomData};

/// Names one project and one journal: those that are replayed. It has no calls.
pub trait JournalInput {
    ghost use Rattle.std.specs.Prelude.{List};
    ghost use Rattle.spec_machine.specs.declared.event.Event.{Event};
    ghost use Rattle.spec_machine.specs.Project.{Project};

    ghost project: { Project };

    ghost journal: { List Event };
}

/// The story of an input: the snapshots of its run.
pub(crate) struct Tells<I> {
    input: PhantomData<I>,
}

impl<I: JournalInput> Story for Tells<I> {
    ghost use Rattle.spec_story.specs.Snapshots.{snapshots};

    ghost story = { snapshots I.project I.journal };
}

// A caller that passes `Brand` says at the call what it names; by itself it names none.
impl JournalInput for Brand {
    ghost use Rattle.std.specs.Prelude.{[]};
    ghost use Rattle.lgx_lanes.specs.Lanes.{no_project};

    ghost project = { no_project };

    ghost journal = { [] };
}
