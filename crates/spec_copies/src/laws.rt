// Laws of scans in progress and their copies. Each function is a law: it does nothing, and its contract is what is shown.
ghost use Rattle.spec_copies.specs.Standing.{ScansStandIn};
ghost use Rattle.spec_copies.specs.WholeCopies.{RunsCopyWhole};

/// A scan is in rungs that can be executed, and its copy in progress lies in the image.
pub fn scans_stand_in()
    ensures { ScansStandIn }
{}

/// The copy law, for every valid project and every list of events.
pub fn copies_are_whole()
    ensures { RunsCopyWhole }
{}
