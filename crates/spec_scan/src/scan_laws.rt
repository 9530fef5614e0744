// Laws of a scan, over the definitions alone.
ghost use Rattle.spec_scan.specs.Returns.{StepsKeepReturns};

/// A step keeps the places that a position's frames want returns at in the image, each on a byte.
pub fn steps_keep_returns()
    ensures { StepsKeepReturns }
{}
