// The law, over the definitions alone.
ghost use Rattle.spec_valid.specs.Aligned.{FixedIsAligned};

/// What a text names begins at a multiple of its size, if numbers alone are its subscripts.
pub fn fixed_is_aligned()
    ensures { FixedIsAligned }
{}
