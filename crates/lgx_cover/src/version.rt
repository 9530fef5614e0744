// A version of a program.
ghost use Rattle.std.specs.Prelude.{◌≡◌};
ghost use Rattle.lgx_cover.specs.Counts.{is_version};

/// A version of a program, that a scan of the program began with: the number of the program, and that of the version.
#[derive(Clone, Copy)]
pub struct Version {
    pub program: u32,
    pub number: u32,
}

impl Version {
    /// Whether it is this one.
    #[inline(always)]
    pub(crate) fn is(self, other: Version) -> bool
        ensures { result ≡ is_version self other }
    {
        self.program == other.program && self.number == other.number
    }
}
