// Laws of the report, over the definitions alone. Each is the contract of a function that does nothing.
ghost use Rattle.lgx_record.specs.EventLines.{EventsHaveFewLines};
ghost use Rattle.lgx_record.specs.Faults.{AnswersTellFaults};
ghost use Rattle.lgx_record.specs.Extends.{KeepsAnEvent};

/// Whatever the event, its answer reports the faults that it recorded.
pub fn law_of_faults()
    ensures { AnswersTellFaults }
{}

/// A report of a valid project has at most `MAX_EVENT_LINES` lines for each of its events, taken together. So far fewer lines
/// are lost than a log can count.
pub fn law_of_lines()
    ensures { EventsHaveFewLines }
{}

/// Whatever the event, an empty log keeps all of its lines.
pub fn law_of_events()
    ensures { KeepsAnEvent }
{}
