// What the log holds after any list of notes.
ghost use Rattle.lgx_fault.specs.Kept.{HoldsTheLast};

/// Whatever faults are noted in turn from an empty log on, the log holds the last of them.
pub fn law_of_notes()
    ensures { HoldsTheLast }
{}
