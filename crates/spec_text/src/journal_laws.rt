// Laws of the texts of journals and scripts, over the definitions alone. Each function is a law: it does nothing, and
// its contract is what is shown.
ghost use Rattle.std.specs.Prelude.{◌≡◌, List, ℕ, IfOk, IsTrue};
ghost use Rattle.spec_text.specs.JournalText.{journal_of, joined, events_of, IsWithin};
ghost use Rattle.spec_text.specs.ScriptText.{script_of};
ghost use Rattle.spec_text.specs.Scripts.{is_script};
ghost use Rattle.spec_machine.specs.declared.event.Event.{Event};

/// The runs of equal events in which a journal is written expand to its events.
pub fn runs_expand()
    ensures { (journal : List Event) → events_of (joined journal) ≡ journal }
{}

/// What a text is read to keeps what the type of scripts says.
pub fn scripts_are_kept()
    ensures { (bytes : List ℕ) → IfOk (script_of bytes) (λ s. IsTrue (is_script s)) }
{}

/// What a text is read to is within the limits of a journal.
pub fn journals_are_within_limits()
    ensures { (bytes : List ℕ) → IfOk (journal_of bytes) (λ journal. IsWithin journal) }
{}
