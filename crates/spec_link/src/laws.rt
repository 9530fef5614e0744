// Laws of link scripts, over the definitions alone. Each function is a law: it does nothing, and its contract is what is shown.
ghost use Rattle.spec_link.specs.Consumed.{ConsumesWhole, ScriptsKeepWhole, ConnectionsHaveTags};
ghost use Rattle.spec_link.specs.LinkOutput.{LinesAreReports};

/// After each line the consumed tag has its opening words, or all the words of the packet that was taken last, whose number
/// never falls; and a packet's words are those of one moment. So it is with every text of a link script. Every connection has
/// its tag.
pub fn consumed_words_are_whole()
    ensures whole { ConsumesWhole }
    ensures scripts { ScriptsKeepWhole }
    ensures tags { ConnectionsHaveTags }
{}

/// The output has each controller's report.
pub fn lines_are_reports()
    ensures { LinesAreReports }
{}
