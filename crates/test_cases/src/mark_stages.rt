// The laws of marks and of order on stages that keep them and on those of controllers that execute too little, and what edits
// make of a base. Each function is a law: it does nothing, and its contract is what is shown.
ghost use Rattle.std.specs.Prelude.{◌≡◌};
ghost use Rattle.spec_machine.specs.declared.answer.Mark.TheVariants.{Plain, Down};
ghost use Rattle.spec_legal.specs.EditByEdit.{with_edits};
ghost use Rattle.spec_laws.specs.Marks.{KeepsMarks};
ghost use Rattle.test_cases.specs.MergeCases.{three_rungs, six_edits, six_edited, late_edits, late_edited};
ghost use Rattle.test_cases.specs.MarkStages.{opens, stays_open, copies, marked, BreaksMarks, IsInOrder, leaves_at_once, executes_twice, BreaksOrder};

/// Steps of a run, and a scan of it.
pub fn marks_and_order_are_kept()
    ensures opens { KeepsMarks opens }
    ensures stays_open { KeepsMarks stays_open }
    ensures copies { KeepsMarks copies }
    ensures in_order { IsInOrder }
{}

/// A region that opens without a mark, one that closes with a false condition, and a copy that doesn't start; scans that
/// leave out an instruction or execute it twice.
pub fn marks_and_order_are_broken()
    ensures unmarked { BreaksMarks (marked Plain opens) }
    ensures closes { BreaksMarks (marked Down stays_open) }
    ensures never_starts { BreaksMarks (marked Plain copies) }
    ensures leaves_at_once { BreaksOrder leaves_at_once }
    ensures executes_twice { BreaksOrder executes_twice }
{}

/// Inserts, a replacement and a deletion, and edits that come too late.
pub fn base_is_edited()
    ensures six { with_edits three_rungs six_edits ≡ six_edited }
    ensures late { with_edits three_rungs late_edits ≡ late_edited }
{}
