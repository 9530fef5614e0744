// What is shown over the definitions alone. Each function is a law: it does nothing, and its contract is what is shown.
ghost use Rattle.std.specs.Prelude.{◌≡◌, IsTrue, List, Some};
ghost use Rattle.spec_schedule.specs.declared.trace.TraceEvent.{TraceEvent};
ghost use Rattle.lgx_audit.specs.OnePass.{TurnsNowAreTurns, WaysNowAreWays};
ghost use Rattle.lgx_audit.specs.Breaches.{NoneIsLegal, SomeIsBreach};
ghost use Rattle.lgx_audit.specs.TraceText.{line_words};
ghost use Rattle.lgx_audit.specs.TraceReading.{event_of};
ghost use Rattle.lgx_audit.specs.Kept.{is_kept};
ghost use Rattle.lgx_audit.specs.OwnTraces.{RunsPassAudit};

/// Both parts of the turn law hold of a trace exactly if each event passes its test by what is watched just before it.
pub fn one_pass_decides()
    ensures between_steps { TurnsNowAreTurns }
    ensures over_ticks { WaysNowAreWays }
{}

/// The breach that is reported of a trace of the table is none exactly where the trace is legal, and else the one that it has.
pub fn breaches_are_told()
    ensures none { NoneIsLegal }
    ensures some { SomeIsBreach }
{}

/// The words of an event's line are read as that event, where its numbers fit a `u32`.
pub fn words_are_read_back()
    ensures { (event : TraceEvent) → IsTrue (is_kept event) → event_of (line_words event) ≡ Some event }
{}

/// The text of what is seen of a run of a valid project is read as what is seen of it, and no event of it breaks a law.
pub fn runs_pass_audit()
    ensures { RunsPassAudit }
{}
