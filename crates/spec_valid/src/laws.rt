// The laws, over the definitions alone.
ghost use Rattle.spec_valid.specs.Accepted.{AcceptedIsValid, GivenIsValid};

/// What a file describes within its limits, with no refusal, makes a valid project; and so every project that a file gives
/// is one.
pub fn accepted_is_valid()
    ensures accepted { AcceptedIsValid }
    ensures given { GivenIsValid }
{}
