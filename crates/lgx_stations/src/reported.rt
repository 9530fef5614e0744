// What a replay with stations keeps.
ghost use Rattle.std.specs.Prelude.{◌≡◌, ◌<◌, List, [], ◌∷◌, ◌++◌, OnOk, length};
ghost use Rattle.spec_base.specs.declared.limits.TheConstants.{MAX_EVENTS};
ghost use Rattle.spec_machine.specs.declared.event.Event.{Event as Events};
ghost use Rattle.spec_machine.specs.Machine.{run};
ghost use Rattle.spec_machine.specs.Project.{Project};
ghost use Rattle.spec_story.specs.Snapshots.{snapshot};
ghost use Rattle.lgx_stations.specs.Reports.{Reports};

use lgx_hmi::{Snapshot, Values};
use lgx_journal::{Event, single};
use lgx_num::Memory;
use lgx_record::Run;
use lgx_watch::Log;

/// A run with the log of its report.
#[derive(Drop)]
pub struct Reported {
    pub run: Run,
    pub log: Log,
}

impl Reported {
    /// Takes one more event. Out of memory is the one fault.
    pub(crate) fn take(&mut self, event: &Event) -> Result<(), Memory>
        requires { (p : Project) × (events : List Events) × Reports self.old p events × (length events < MAX_EVENTS) }
        ensures { (p : Project) (events : List Events) → Reports self.old p events → OnOk result (Reports self.new p (events ++ event.now ∷ [])) }
    {
        self.run.take(single(event), &mut self.log)
    }

    /// The watched values after the events so far, with the present tick.
    pub(crate) fn snapshot(&self) -> Snapshot
        ensures { (p : Project) (events : List Events) → Reports self.now p events → result ≡ snapshot p (run p events) }
    {
        self.run.law_of_runs();
        Snapshot {
            tick: self.run.controller().now(),
            values: Values::of(self.run.values()),
        }
    }
}
