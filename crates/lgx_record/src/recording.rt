// The recording of a run.
use crate::run::Run;
use lgx_core::Controller;
use lgx_edit::Plant;
use lgx_journal::{Action, EventsLent, Journal};
use lgx_num::Memory;
use lgx_watch::{Log, Names};
use std::alloc::Global;
use std::marker::Model;

/// A run with the journal of its events and the log of their report.
pub struct Recording {
    /// What the journal takes memory for an accept's texts from.
    alloc: Global,
    run: Run,
    journal: Journal,
    log: Log,
}

impl Drop for Recording {
    fn drop(self) {
        let Recording {
            alloc: _,
            run: _,
            journal: _,
            log: _,
        } = self;
    }
}

impl Model for Recording {
    ghost use Rattle.std.specs.Coded.{codes, coded_list};
    ghost use Rattle.lgx_edit.specs.Codes.{view_code};
    ghost use Rattle.lgx_core.specs.Codes.{controller_code};
    ghost use Rattle.lgx_record.specs.RecordingView.{RecordingView};
    ghost use Rattle.lgx_record.specs.Codes.{recording_code};

    ghost Value = { RecordingView };

    ghost coded = { recording_code (controller_code (coded_list (view_code (Prim.hlevel codes) (Prim.hlevel codes) (Prim.hlevel codes))) (Prim.hlevel codes)) (Prim.hlevel codes) };

    ghost use Rattle.lgx_record.specs.RecordingView.{recording_of};
    ghost use Rattle.lgx_record.specs.Records.{IsRecording};

    ghost view = { λ r. recording_of r.run r.journal r.log };

    ghost invariant = { λ r. IsRecording (recording_of r.run r.journal r.log) };
}

impl Recording {
    ghost use Rattle.std.specs.Prelude.{◌≡◌, ◌+◌, ◌≤◌, ◌<◌, [], ◌∷◌, replicate, IfOk, OnOk, OnErr, IsTrue};
    ghost use Rattle.spec_base.specs.declared.limits.TheConstants.{MAX_EVENTS};
    ghost use Rattle.spec_machine.specs.declared.event.Event.TheVariants.{Cpu, Tick, Act};
    ghost use Rattle.spec_machine.specs.Events.{is_accept};
    ghost use Rattle.lgx_journal.specs.Runs.{seen_run};
    ghost use Rattle.lgx_record.specs.Extends.{events_in, is_accept_in};
    ghost use Rattle.lgx_record.specs.Records.{Records, IsRecording, RecordsMore, HasCounted, IsUnchanged};

    /// A recording of a project's run without an event. It takes the room for all lines that the log keeps; that of the journal is
    /// taken as events come. Out of memory is the one fault.
    pub fn of_project(alloc: Global, project: Plant) -> Result<Recording, Memory>
        ensures { IfOk result (λ recording. Records recording project []) }
    {
        let log = Log::new(alloc)?;
        let run = Run::of_project(alloc, project)?;
        Ok(Recording {
            alloc,
            run,
            journal: Journal::new(alloc),
            log,
        })
    }

    /// Every recording records some journal of some project.
    pub fn law_of_recordings(&self)
        ensures { IsRecording self.now }
    {
        let _ = &self.run;
    }

    /// Takes the journal's room for `runs` more runs of events. Nothing else changes; at out of memory some of the room may have
    /// been taken.
    pub fn reserve(&mut self, runs: u32) -> Result<(), Memory>
        ensures room { OnOk result (runs ≤ self.new.journal.spare) }
        ensures kept { self.old.journal.spare ≤ self.new.journal.spare }
        ensures unchanged { IsUnchanged self.old self.new }
    {
        self.journal.reserve(runs)?;
        Ok(())
    }

    /// Takes equal events, for which the journal has room: processor steps or ticks, of which at least one, or an action. Out of
    /// memory comes at an accept alone; then nothing changes.
    pub fn take(&mut self, run: EventsLent<'_>) -> Result<(), Memory>
        requires some { 0 < (seen_run run).count }
        requires room { self.old.controller.spent + (seen_run run).count ≤ MAX_EVENTS }
        requires spare { 0 < self.old.journal.spare }
        ensures records { OnOk result (RecordsMore self.old self.new (events_in run.entry)) }
        ensures counts { OnOk result (HasCounted self.old self.new (events_in run.entry)) }
        ensures spare { self.old.journal.spare ≤ self.new.journal.spare + 1 }
        ensures memory { OnErr result (IsTrue (is_accept_in run.entry)) }
        ensures unchanged { OnErr result (self.new ≡ self.old) }
    {
        match run {
            EventsLent::Cpu(count) => {
                self.take_steps(count);
                Ok(())
            }
            EventsLent::Tick(count) => {
                self.take_ticks(count);
                Ok(())
            }
            EventsLent::Act(lane, action) => self.act(lane, action),
        }
    }

    /// Takes one processor step, for which the journal has room. It takes no memory.
    pub fn step(&mut self)
        requires room { self.old.controller.spent < MAX_EVENTS }
        requires spare { 0 < self.old.journal.spare }
        ensures records { RecordsMore self.old self.new (Cpu ∷ []) }
        ensures counts { HasCounted self.old self.new (Cpu ∷ []) }
        ensures spare { self.old.journal.spare ≤ self.new.journal.spare + 1 }
    {
        self.take_steps(1);
    }

    /// Takes one tick, for which the journal has room. It takes no memory.
    pub fn tick(&mut self)
        requires room { self.old.controller.spent < MAX_EVENTS }
        requires spare { 0 < self.old.journal.spare }
        ensures records { RecordsMore self.old self.new (Tick ∷ []) }
        ensures counts { HasCounted self.old self.new (Tick ∷ []) }
        ensures spare { self.old.journal.spare ≤ self.new.journal.spare + 1 }
    {
        self.take_ticks(1);
    }

    /// Takes `count` processor steps. They take no memory.
    #[inline(always)]
    fn take_steps(&mut self, count: u32)
        requires some { 0 < count }
        requires room { self.old.controller.spent + count ≤ MAX_EVENTS }
        requires spare { 0 < self.old.journal.spare }
        ensures records { RecordsMore self.old self.new (replicate count Cpu) }
        ensures counts { HasCounted self.old self.new (replicate count Cpu) }
        ensures spare { self.old.journal.spare ≤ self.new.journal.spare + 1 }
    {
        self.run.take_steps(count, &mut self.log);
        self.journal.add_steps(count);
    }

    /// Takes `count` ticks. They take no memory.
    #[inline(always)]
    fn take_ticks(&mut self, count: u32)
        requires some { 0 < count }
        requires room { self.old.controller.spent + count ≤ MAX_EVENTS }
        requires spare { 0 < self.old.journal.spare }
        ensures records { RecordsMore self.old self.new (replicate count Tick) }
        ensures counts { HasCounted self.old self.new (replicate count Tick) }
        ensures spare { self.old.journal.spare ≤ self.new.journal.spare + 1 }
    {
        self.run.take_ticks(count, &mut self.log);
        self.journal.add_ticks(count);
    }

    /// Takes an action of a lane. Out of memory comes at an accept alone; then nothing changes.
    fn act(&mut self, lane: u32, action: &Action) -> Result<(), Memory>
        requires room { self.old.controller.spent < MAX_EVENTS }
        requires spare { 0 < self.old.journal.spare }
        ensures records { OnOk result (RecordsMore self.old self.new (Act lane action.now ∷ [])) }
        ensures counts { OnOk result (HasCounted self.old self.new (Act lane action.now ∷ [])) }
        ensures spare { self.old.journal.spare ≤ self.new.journal.spare + 1 }
        ensures memory { OnErr result (IsTrue (is_accept action.now)) }
        ensures unchanged { OnErr result (self.new ≡ self.old) }
    {
        let copy = action.copied(self.alloc)?;
        self.run.act(lane, action, &mut self.log)?;
        self.journal.add_act(lane, copy);
        Ok(())
    }

    /// The same of events for which the journal may have no room, and which may be none. It is taken before anything changes; out
    /// of memory comes if there is none, and at an accept that has none. For no event no room is taken.
    pub fn apply(&mut self, run: EventsLent<'_>) -> Result<(), Memory>
        requires room { self.old.controller.spent + (seen_run run).count ≤ MAX_EVENTS }
        ensures records { OnOk result (RecordsMore self.old self.new (events_in run.entry)) }
        ensures counts { OnOk result (HasCounted self.old self.new (events_in run.entry)) }
        ensures unchanged { OnErr result (IsUnchanged self.old self.new) }
        ensures room { OnErr result (self.old.journal.spare ≤ self.new.journal.spare) }
    {
        if is_none(&run) {
            return Ok(());
        }
        self.reserve(1)?;
        self.take(run)
    }

    /// The events that were taken.
    pub fn journal(&self) -> &Journal
        ensures { result.now ≡ self.now.journal }
    {
        &self.journal
    }

    /// The lines of their report.
    pub fn log(&self) -> &Log
        ensures { result.now ≡ self.now.log }
    {
        &self.log
    }

    /// The controller, after the events that were taken.
    pub fn controller(&self) -> &Controller
        ensures { result.now ≡ self.now.controller }
    {
        self.run.controller()
    }

    /// The names that the report's lines are written with.
    pub fn names(&self) -> &Names
        ensures { result.now ≡ self.now.names }
    {
        self.run.names()
    }

    /// The number of processor steps so far.
    pub fn steps(&self) -> u32
        ensures { result ≡ self.now.steps }
    {
        self.run.steps()
    }
}

ghost use Rattle.std.specs.Prelude.{◌≡◌, ◌==◌};
ghost use Rattle.lgx_journal.specs.Runs.{seen_run};

/// Whether it is no event at all.
fn is_none(run: &EventsLent<'_>) -> bool
    ensures { result ≡ ((seen_run run.now).count == 0) }
{
    match run {
        EventsLent::Cpu(count) | EventsLent::Tick(count) => *count == 0,
        EventsLent::Act(_, _) => false,
    }
}
