// The mode along a trace, and the law of modes at one event.
ghost use Rattle.std.specs.Prelude.{◌≡◌, ℕ, List, Option};
ghost use Rattle.spec_schedule.specs.declared.trace.TraceAnswer.TheVariants.{Done};
ghost use Rattle.spec_schedule.specs.declared.trace.TraceEvent.TheVariants.{Act};
ghost use Rattle.std.specs.List.{list_any};
ghost use Rattle.spec_schedule.specs.Counting.{Counted, CountedEvent, Numbers};
ghost use Rattle.lgx_audit.specs.Along.{Shown};
ghost use Rattle.lgx_laws.specs.Modes.{mode_shown, mode_after, holds, leads_from, is_answer, answers_mode, keeps_modes};

use lgx_audit::{Count, StepFault, TraceAnswer, TraceEvent, Verb};
use spec_machine::Mode;

/// The mode after a command that is done.
fn mode_of(verb: Verb, before: Mode) -> Mode
    ensures { (lane mask : ℕ) (g : Option ℕ) → result ≡ mode_shown (Act lane verb g Done mask) before }
{
    match verb {
        Verb::Run => Mode::Run,
        Verb::Program | Verb::Clear => Mode::Program,
        _ => before,
    }
}

/// The mode after an action that was answered so.
fn mode_by(verb: Verb, answer: TraceAnswer, before: Mode) -> Mode
    ensures { (lane mask : ℕ) (g : Option ℕ) → result ≡ mode_shown (Act lane verb g answer mask) before }
{
    match answer {
        TraceAnswer::Done => mode_of(verb, before),
        TraceAnswer::No => before,
        TraceAnswer::Number(_) => before,
    }
}

/// The mode after the event.
pub(crate) fn mode_after(e: &TraceEvent, before: Mode) -> Mode
    ensures { result ≡ mode_shown e.now before }
{
    match e {
        TraceEvent::Act { verb, answer, .. } => mode_by(*verb, *answer, before),
        TraceEvent::Step {
            fault: StepFault::Major,
            ..
        } => Mode::Faulted,
        TraceEvent::Tick {
            watchdog: Some(_),
            ..
        } => Mode::Faulted,
        _ => before,
    }
}

/// Whether a task of these counts has a CPS open.
fn any_open(counts: &[Count]) -> bool
    ensures { result ≡ list_any (λ c. c.cps_open) counts.now }
{
    counts.iter().any(|count| count.cps_open)
}

/// Whether some task has a CPS in progress.
pub(crate) fn holds(counts: &[Count]) -> bool
    ensures { (cs : List Counted) → Shown counts.now cs → result ≡ holds cs }
{
    any_open(counts)
}

/// Whether a command leads from this mode.
fn leads_from(verb: Verb, mode: Mode) -> bool
    ensures { result ≡ leads_from verb mode }
{
    match (verb, mode) {
        (Verb::Run, Mode::Program) => true,
        (Verb::Program, Mode::Run) => true,
        (Verb::Clear, Mode::Faulted) => true,
        _ => false,
    }
}

/// Whether a command was done or refused, as is asked.
fn is_answer(takes: bool, answer: TraceAnswer) -> bool
    ensures { result ≡ is_answer takes answer }
{
    match answer {
        TraceAnswer::Done => takes,
        TraceAnswer::No => !takes,
        TraceAnswer::Number(_) => false,
    }
}

/// Whether a command of modes is answered as the mode and an open CPS ask.
fn answers_mode(counts: &[Count], mode: Mode, verb: Verb, answer: TraceAnswer) -> bool
    ensures { (cs : List Counted) (past : List CountedEvent) → Shown counts.now cs → mode ≡ mode_after past → result ≡ answers_mode verb past cs answer }
{
    let leads = leads_from(verb, mode);
    let held = holds(counts);
    is_answer(leads && !held, answer)
}

/// Whether the event keeps the law of modes.
pub(crate) fn keeps_modes(counts: &[Count], mode: Mode, e: &TraceEvent) -> bool
    ensures { (cs : List Counted) (ns : List Numbers) (past : List CountedEvent) → Shown counts.now cs → mode ≡ mode_after past
        → result ≡ keeps_modes past (record { tasks = cs; programs = ns; event = e.now }) }
{
    match e {
        TraceEvent::Act { verb, answer, .. } => match verb {
            Verb::Run => answers_mode(counts, mode, Verb::Run, *answer),
            Verb::Program => answers_mode(counts, mode, Verb::Program, *answer),
            Verb::Clear => answers_mode(counts, mode, Verb::Clear, *answer),
            _ => true,
        },
        _ => true,
    }
}
