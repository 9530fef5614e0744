// Which instructions read a tag. Each function is a law: it does nothing, and its contract is what is shown.
ghost use Rattle.std.specs.Prelude.{◌≡◌, [], ◌∷◌};
ghost use Rattle.spec_uses.specs.Changes.{IsByteOf};
ghost use Rattle.spec_uses.specs.Uses.{readers};
ghost use Rattle.spec_readers.specs.Reads.{AreSameBut};
ghost use Rattle.test_cases.specs.LadderRuns.{one_rung};
ghost use Rattle.test_cases.specs.ReadCases.{NoOthersRead, a_is_one, a_is_zero, ons, ote, s_is_one, s_is_zero, xic};
ghost use Rattle.test_cases.specs.TaskRuns.{inhibited_event};

use crate::project_cases::project_is_valid;
use spec_readers::others_read_nothing;

/// XIC reads its tag, and ONS the tag that it also writes. No instructions but these read them.
pub fn readers_are_listed()
    ensures xic { readers one_rung 0 ≡ xic ∷ [] }
    ensures ons { readers inhibited_event 1 ≡ ons ∷ [] }
    ensures no_others { NoOthersRead inhibited_event 1 (ons ∷ []) }
{
    project_is_valid();
    others_read_nothing();
}

/// Lists that leave out a reader: from two images that differ in the tag alone, the instruction that is left out makes other
/// conditions.
pub fn readers_are_left_out()
    ensures one_tag { AreSameBut (IsByteOf one_rung 0) a_is_one a_is_zero }
    ensures one_storage { AreSameBut (IsByteOf inhibited_event 1) s_is_zero s_is_one }
    ensures none { NoOthersRead one_rung 0 [] → ⊥ }
    ensures writer_alone { NoOthersRead one_rung 0 (ote ∷ []) → ⊥ }
    ensures no_ons { NoOthersRead inhibited_event 1 [] → ⊥ }
{}
