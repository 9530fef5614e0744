// The numbers of a program's texts along a trace.
ghost use Rattle.std.specs.Prelude.{◌≡◌, ◌<◌, ℕ, List, length, replicate, slice_index_or, IfOk};
ghost use Rattle.spec_schedule.specs.Counting.{Counted, Numbers, edited, edited_all, selected_number};
ghost use Rattle.spec_schedule.specs.Legal.{keeps_version};
ghost use Rattle.lgx_audit.specs.Along.{numbers_in, no_tally, AreNumbersIn, IsOfPrograms};

use lgx_num::Memory;
use spec_schedule::{TraceAnswer, TraceEvent, Verb};
use std::alloc::Global;

/// The numbers of a program's base and merged text, and whether it is testing.
#[derive(Clone, Copy)]
pub struct Tally {
    pub base: u32,
    pub merged: u32,
    pub testing: bool,
}

/// The numbers of programs before the first edit.
pub(crate) fn no_tallies(alloc: Global, programs: usize) -> Result<Vec<Tally>, Memory>
    ensures { IfOk result (λ tallies. tallies.items ≡ replicate programs no_tally) }
{
    let none = Tally {
        base: 0,
        merged: 0,
        testing: false,
    };
    Ok(vec![in alloc; none; programs]?)
}

/// The numbers after an edit that was answered so.
fn edited(verb: Verb, answer: TraceAnswer, n: Tally) -> Tally
    ensures { numbers_in result ≡ edited verb answer (numbers_in n) }
{
    match (verb, answer) {
        (Verb::Accept, TraceAnswer::Number(merged)) => Tally { merged, ..n },
        (Verb::Test, TraceAnswer::Done) => Tally { testing: true, ..n },
        (Verb::Untest, TraceAnswer::Done) => Tally {
            testing: false,
            ..n
        },
        (Verb::Assemble, TraceAnswer::Done) => Tally {
            base: n.merged,
            merged: n.merged,
            testing: false,
        },
        (Verb::Cancel, TraceAnswer::Done) => Tally {
            testing: false,
            ..n
        },
        _ => n,
    }
}

/// The numbers of all programs after the event.
pub(crate) fn edit_all(tallies: &mut [Tally], e: &TraceEvent)
    requires { IsOfPrograms (length tallies.old) e.now }
    ensures { (ns : List Numbers) → AreNumbersIn tallies.old ns → AreNumbersIn tallies.new (edited_all e.now ns) }
{
    match e {
        TraceEvent::Act {
            verb,
            program,
            answer,
            ..
        } => match program {
            Some(g) => {
                let i = *g as usize;
                tallies[i] = edited(*verb, *answer, tallies[i]);
            }
            None => {}
        },
        _ => {}
    }
}

/// The number of the text that is selected.
fn selected(n: Tally) -> u32
    ensures { result ≡ selected_number (numbers_in n) }
{
    if n.testing { n.merged } else { n.base }
}

/// Whether the event keeps the version law after what is counted.
pub(crate) fn keeps_version(tallies: &[Tally], e: &TraceEvent) -> bool
    requires { IsOfPrograms (length tallies.now) e.now }
    ensures { (cs : List Counted) (ns : List Numbers) → AreNumbersIn tallies.now ns → result ≡ keeps_version (record { tasks = cs; programs = ns; event = e.now }) }
{
    match e {
        TraceEvent::Began {
            program,
            version,
            ..
        } => *version == selected(tallies[*program as usize]),
        _ => true,
    }
}
