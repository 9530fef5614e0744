// Laws of stories, over the definitions alone. Each function is a law: it does nothing, and its contract is what is shown.
ghost use Rattle.spec_story.specs.Snapshots.{StoriesGoOn, TicksAddOne, OthersAddNone, TicksAreNumbers};

/// The story of a longer journal begins with that of a shorter one; a tick adds one snapshot, as long as there is room, and no
/// other event does; and a snapshot's tick is its place in the story, counted from 0.
pub fn stories_go_on()
    ensures prefix { StoriesGoOn }
    ensures ticks { TicksAddOne }
    ensures others { OthersAddNone }
    ensures numbers { TicksAreNumbers }
{}
