// How many processor steps and ticks a journal has.
ghost use Rattle.std.specs.Prelude.{◌≡◌, ◌<◌, ◌^◌};
ghost use Rattle.spec_machine.specs.Events.{is_step, is_tick, steps_of};
ghost use Rattle.spec_lanes.specs.Turns.{ticks_of};
ghost use Rattle.lgx_journal.specs.Runs.{seen_run};
ghost use Rattle.cmd_explore.specs.Counts.{run_count};

use lgx_journal::{EventsLent, Journal};

/// How many processor steps, and how many ticks.
#[derive(Clone, Copy)]
pub(crate) struct Counts {
    pub(crate) steps: u64,
    pub(crate) ticks: u64,
}

/// The counts of a run of equal events.
fn counts_in(run: EventsLent<'_>) -> Counts
    ensures steps { result.steps ≡ run_count is_step (seen_run run.entry) }
    ensures ticks { result.ticks ≡ run_count is_tick (seen_run run.entry) }
    ensures few_steps { result.steps < 2 ^ 32 }
    ensures few_ticks { result.ticks < 2 ^ 32 }
{
    match run {
        EventsLent::Cpu(count) => Counts {
            steps: u64::from(count),
            ticks: 0,
        },
        EventsLent::Tick(count) => Counts {
            steps: 0,
            ticks: u64::from(count),
        },
        EventsLent::Act(_, _) => Counts { steps: 0, ticks: 0 },
    }
}

/// The counts of a journal.
#[tactic(auto, using(crate::proofs::Counting::one_more_run, crate::proofs::Counting::runs_tell))]
pub(crate) fn counts_of(journal: &Journal) -> Counts
    ensures steps { result.steps ≡ steps_of journal.now.events }
    ensures ticks { result.ticks ≡ ticks_of journal.now.events }
{
    let mut steps = 0u64;
    let mut ticks = 0u64;
    for i in 0..journal.runs() {
        let here = counts_in(journal.run_at(i));
        steps += here.steps;
        ticks += here.ticks;
    }
    Counts { steps, ticks }
}
