// Where instructions are.
ghost use Rattle.std.specs.Prelude.{◌≡◌, ◌<◌, ◌≤◌};
ghost use Rattle.spec_base.specs.declared.limits.TheConstants.{MAX_ROUTINE_INSTRUCTIONS};
ghost use Rattle.lgx_check.specs.Spots.{place_after};

/// The place of an instruction: its rung, its number in the rung, and how many instructions of the routine come before it.
#[derive(Clone, Copy, PartialEq, Eq, Debug)]
pub(crate) struct InstructionPlace {
    pub(crate) rung: u64,
    pub(crate) ins: u32,
    pub(crate) before: u32,
}

/// The place of an instruction, and whether it is its rung's first element.
#[derive(Clone, Copy, PartialEq, Eq, Debug)]
pub(crate) struct Spot {
    pub(crate) place: InstructionPlace,
    pub(crate) leads: bool,
}

impl InstructionPlace {
    /// Goes on to the next instruction of the rung.
    pub(crate) fn advance(&mut self)
        requires room { self.old.before < MAX_ROUTINE_INSTRUCTIONS }
        requires within { self.old.ins ≤ self.old.before }
        ensures { self.new ≡ place_after 1 self.old }
    {
        self.ins += 1;
        self.before += 1;
    }
}
