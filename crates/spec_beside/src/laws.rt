// Laws of what instructions write beside, and of which event may change a tag. Each function is a law: it does nothing, and its contract is what is shown.
ghost use Rattle.spec_beside.specs.Copies.{CopiesGoOnBeside, CopiesStartBeside, ElementsWriteBeside};
ghost use Rattle.spec_beside.specs.InTags.{CheckedInTags, FoundInTag, SubscriptsInTags};
ghost use Rattle.spec_beside.specs.Prescans.{PrescanWritesBeside};
ghost use Rattle.spec_beside.specs.Routines.{CallsStand, FramesBegin, FramesStay, RoutinesStand};
ghost use Rattle.spec_beside.specs.Rows.{RowsWriteBeside};
ghost use Rattle.spec_beside.specs.Sites.{BytesAreOfOneTag, SitesWriteBeside};
ghost use Rattle.spec_beside.specs.Steps.{StepsCopyBeside, StepsWriteBeside};
ghost use Rattle.spec_uses.specs.Changes.{ChangesHaveWriters};

/// What a text and an operand name lies in one tag, and so does each subscript; no two tags have a byte in common, and an
/// instruction that isn't among a tag's writers writes beside its bytes.
pub fn operands_lie_in_tags()
    ensures found { FoundInTag }
    ensures subscripts { SubscriptsInTags }
    ensures checked { CheckedInTags }
    ensures apart { BytesAreOfOneTag }
    ensures sites { SitesWriteBeside }
{}

/// An instruction changes no byte beside which it writes, and neither does a step that executes it.
pub fn rows_write_beside()
    ensures rows { RowsWriteBeside }
    ensures steps { StepsWriteBeside }
{}

/// A copy writes beside the bytes beside which the instruction writes that started it, from its start to its last element.
pub fn copies_write_beside()
    ensures starts { CopiesStartBeside }
    ensures goes_on { CopiesGoOnBeside }
    ensures elements { ElementsWriteBeside }
    ensures steps { StepsCopyBeside }
{}

/// The change to Run leaves a tag without writers as it is.
pub fn prescan_writes_beside()
    ensures { PrescanWritesBeside }
{}

/// The frames of a scan are in their own routines, and want returns where calls of these want them.
pub fn scans_keep_frames()
    ensures routines { RoutinesStand }
    ensures calls { CallsStand }
    ensures begin { FramesBegin }
    ensures stay { FramesStay }
{}

/// Where an event changes a byte of a tag, it is a word in on a connection of the tag, a change to Run and the tag has a writer, or
/// a step of a program whose instruction is among the tag's writers. It is shown of every run without accepted edits.
pub fn changes_have_writers()
    ensures { ChangesHaveWriters }
{}
