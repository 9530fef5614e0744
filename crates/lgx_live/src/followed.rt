// The run that is talked to.
ghost use Rattle.std.specs.Prelude.{◌≡◌, ◌++◌, ◌∷◌, ◌<◌, [], List, length, OnOk};
ghost use Rattle.spec_base.specs.declared.limits.TheConstants.{MAX_EVENTS};
ghost use Rattle.spec_machine.specs.declared.event.Event.{Event as Events};
ghost use Rattle.spec_machine.specs.Project.{Project};
ghost use Rattle.spec_text.specs.ReportText.{names_of};
ghost use Rattle.lgx_record.specs.IsRunOf.{IsRunOf};
ghost use Rattle.lgx_live.specs.Session.{lines_with};
ghost use Rattle.lgx_live.specs.Output.{last_line};

use lgx_journal::single;
use lgx_judge::{end_line, end_of};
use lgx_num::Memory;
use lgx_record::Run;
use lgx_watch::{Log, Names};
use spec_machine::Event;

/// A run that is followed event by event.
#[derive(Drop)]
pub struct Followed {
    pub run: Run,
}

impl Followed {
    /// Takes one more event. The log then has the lines that the report has of this event, and no other.
    pub(crate) fn take(&mut self, event: &Event, log: &mut Log) -> Result<(), Memory>
        requires { (project : Project) × (events : List Events) × IsRunOf self.old.run project events × (length events < MAX_EVENTS) }
        ensures follows { (project : Project) (events : List Events) → IsRunOf self.old.run project events → OnOk result (IsRunOf self.new.run project (events ++ event.now ∷ [])) }
        ensures lines { (project : Project) (events : List Events) → IsRunOf self.old.run project events → OnOk result (log.new ≡ record { lines = lines_with project events (event.now ∷ []); lost = 0 }) }
    {
        log.clear();
        self.run.take(single(event), log)
    }

    /// The names that the report's lines are written with.
    pub(crate) fn names(&self) -> &Names
        ensures { (project : Project) (events : List Events) → IsRunOf self.now.run project events → result.now ≡ names_of project }
    {
        self.run.names()
    }

    /// Makes the end line of the report, in place of what is in the text. What the log then keeps isn't said.
    pub(crate) fn end_line(&self, log: &mut Log, text: &mut Vec<u8>) -> Result<(), Memory>
        ensures { (project : Project) (events : List Events) → IsRunOf self.now.run project events → OnOk result (text.new.items ≡ last_line project events) }
    {
        log.clear();
        let end = end_of(self.run.controller(), self.run.steps());
        end_line(text, log, end)
    }
}
