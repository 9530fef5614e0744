// What is shown over the definitions alone. Each function is a law: it does nothing, and its contract is what is shown.
ghost use Rattle.lgx_laws.specs.Laws.{NoneIsKept, SomeIsBreach};
ghost use Rattle.lgx_laws.specs.OwnTraces.{RunsKeepLaws};

/// The breach that is reported of a trace is none exactly where the trace keeps all laws, and else the one that it has.
pub fn breaches_are_told()
    ensures none { NoneIsKept }
    ensures some { SomeIsBreach }
{}

/// What is seen of a run of a valid project keeps all laws.
pub fn runs_keep_laws()
    ensures { RunsKeepLaws }
{}
