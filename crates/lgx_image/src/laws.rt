// Laws of marks and of watched words. Each is the contract of a function that does nothing.
ghost use Rattle.lgx_image.specs.Laws.{NoChangeNeedsMarks, ChangesFollowOneAnother, UnmarkedPlacesStay, PieceIsMarked, OtherMarksStay, AlignedPlaceInOneGrain, NoHitKeepsWatched, NoChangeKeepsWatched, TwoChangesKeepWatched, WatchedPlacesStay, UnhitPlacesStay};

/// What every change keeps is kept by no change, and by one change after another. A place in grains without a mark has the
/// number that it had before.
pub fn law_of_changes()
    ensures none { NoChangeNeedsMarks }
    ensures chain { ChangesFollowOneAnother }
    ensures places { UnmarkedPlacesStay }
{}

/// A grain is marked by a write if it holds a byte of what is written, and no other mark changes. A place that is
/// aligned to its size lies in one grain.
pub fn law_of_marks()
    ensures marked { PieceIsMarked }
    ensures others { OtherMarksStay }
    ensures aligned { AlignedPlaceInOneGrain }
{}

/// A change after which no word is hit leaves the bytes of all watched words, and so the numbers of all places that lie in them.
/// A place in watched words none of which is hit has the number that it had before.
pub fn law_of_watched()
    ensures change { NoHitKeepsWatched }
    ensures none { NoChangeKeepsWatched }
    ensures chain { TwoChangesKeepWatched }
    ensures places { WatchedPlacesStay }
    ensures unhit { UnhitPlacesStay }
{}
