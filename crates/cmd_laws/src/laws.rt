// What is shown over the definitions alone. The function is a law: it does nothing, and its contract is what is shown.
ghost use Rattle.cmd_laws.specs.OwnTraces.{TracesSayYes};

/// Of the trace that `logix trace` writes of a journal's run the program says yes, with the number of the journal's events.
pub fn traces_say_yes()
    ensures { TracesSayYes }
{}
