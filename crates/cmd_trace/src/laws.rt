// What is shown over the definitions alone. Each function is a law: it does nothing, and its contract is what is shown.
ghost use Rattle.cmd_trace.specs.TraceLaws.{RunsAreLegal, TracesSayYes};

/// What is seen of a run is legal by the project's table, whatever the journal is, where a file is the project; and of the trace
/// that is written of a journal's run the audit says yes, with the number of the journal's events.
pub fn traces_are_legal()
    ensures legal { RunsAreLegal }
    ensures yes { TracesSayYes }
{}
