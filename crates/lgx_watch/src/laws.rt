// Laws of the log and of watched places. Each is the contract of a function that does nothing.
ghost use Rattle.lgx_watch.specs.JournalLines.{OneMoreEvent};
ghost use Rattle.lgx_watch.specs.Kept.{KeepsTheFirst};
ghost use Rattle.lgx_watch.specs.Watches.{UnmarkedWatchesStay, UnhitWatchesStay};

/// Whatever lines are pushed in turn into an empty log, it stands for all of them: it keeps the first and counts the others.
pub fn law_of_pushes()
    ensures { KeepsTheFirst }
{}

/// The lines of a journal with one more event are those of the journal, and then that event's.
pub fn law_of_events()
    ensures { OneMoreEvent }
{}

/// While an image changes as its marks say, a watched place that lies in no marked grain has the number last compared, and so has
/// one that lies in no word that is hit.
pub fn law_of_watches()
    ensures marked { UnmarkedWatchesStay }
    ensures hit { UnhitWatchesStay }
{}
