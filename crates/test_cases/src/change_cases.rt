// What may change a tag, and what a consumed tag never holds. Each function is a law: it does nothing, and its contract is
// what is shown.
ghost use Rattle.std.specs.Prelude.{Some};
ghost use Rattle.spec_link.specs.Consumed.{IsWhole, AreOfOneMoment, NeverOlder};
ghost use Rattle.test_cases.specs.LadderRuns.{one_rung};
ghost use Rattle.test_cases.specs.ChangeCases.{MayChange, Changes, at_begin, at_xic, at_ote, joined, consumed, taken, torn, made_up};

/// An OTE changes its tag, as a writer may.
pub fn writers_change_tags()
    ensures changes { Changes one_rung at_ote 4 }
    ensures writer { MayChange one_rung at_ote 1 }
{}

/// There is no cause for a begin or an XIC to change the tag that the OTE sets, or for the OTE to change the tag of the XIC: a
/// controller that did so would break the law of the cross reference.
pub fn others_change_none()
    ensures begin { MayChange one_rung at_begin 1 → ⊥ }
    ensures reader { MayChange one_rung at_xic 1 → ⊥ }
    ensures other { MayChange one_rung at_ote 0 → ⊥ }
{}

/// The words of a packet that was taken.
pub fn packets_are_whole()
    ensures whole { IsWhole joined consumed taken }
    ensures moments { AreOfOneMoment joined taken }
{}

/// A packet of which one word came, one that was never at the output, and one that is older than the last.
pub fn packets_are_broken()
    ensures torn { IsWhole joined consumed torn → ⊥ }
    ensures made_up { AreOfOneMoment joined made_up → ⊥ }
    ensures older { NeverOlder (Some 1) (Some 0) → ⊥ }
{}
