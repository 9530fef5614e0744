// The journal of a run: its events, as runs of equal ones.
ghost use Rattle.std.specs.Prelude.{◌≡◌, ◌≤◌, ◌<◌, ◌-◌, min, vec_len, vec_capacity};

use crate::counts::Counted;
use crate::runs::{EventsLent, Run, put_run, single};
use lgx_num::Memory;
use spec_machine::{Action, Event};
use spec_text::EventRun;
use std::alloc::Global;
use std::marker::Model;

/// The events of a run in order, and for how many more runs of equal ones there is room.
///
/// Processor steps that follow one another are one run, and ticks too; each action is a run of its own. A run takes eight bytes,
/// and the actions are kept beside the runs, in order.
pub struct Journal {
    runs: Vec<Run>,
    acts: Vec<Event>,
    /// What the runs of processor steps and those of ticks stand for, to be lent.
    counted: [Event; 2],
}

impl Drop for Journal {
    fn drop(self) {
        let Journal {
            runs: _,
            acts: _,
            counted: _,
        } = self;
    }
}

impl Model for Journal {
    ghost use Rattle.std.specs.Prelude.{◌≡◌, ◌-◌, [], ◌∷◌, min, vec_len, vec_capacity};
    ghost use Rattle.spec_machine.specs.declared.event.Event.TheVariants.{Cpu, Tick};
    ghost use Rattle.spec_text.specs.JournalText.{events_of};
    ghost use Rattle.lgx_journal.specs.Journals.{JournalView, journal_view};
    ghost use Rattle.lgx_journal.specs.Runs.{runs_in, AreRuns};

    ghost Value = { JournalView };

    ghost view = { λ j. journal_view (events_of (runs_in j.acts.items j.runs.items)) (min (vec_capacity j.runs - vec_len j.runs) (vec_capacity j.acts - vec_len j.acts)) };

    ghost invariant = { λ j. AreRuns j.acts.items j.runs.items × (j.counted ≡ Cpu ∷ Tick ∷ []) };
}

impl Journal {
    ghost use Rattle.std.specs.Prelude.{◌≡◌, ℕ, ◌≤◌, ◌<◌, ◌+◌, [], ◌∷◌, ◌++◌, length, replicate, slice_index_or, OnOk, OnErr, IfOk, IsTrue, nat_lt};
    ghost use Rattle.spec_base.specs.declared.limits.TheConstants.{MAX_EVENTS};
    ghost use Rattle.spec_machine.specs.declared.event.Event.{Event as Events};
    ghost use Rattle.spec_machine.specs.declared.event.Event.TheVariants.{Cpu, Tick, Act};
    ghost use Rattle.spec_text.specs.declared.script.EventRun.{EventRun};
    ghost use Rattle.spec_text.specs.JournalText.{joined};
    ghost use Rattle.lgx_journal.specs.Counts.{counted_event};
    ghost use Rattle.lgx_journal.specs.Journals.{is_run};
    ghost use Rattle.lgx_journal.specs.Runs.{seen_run};

    /// A journal without an event and without room.
    pub fn new(alloc: Global) -> Journal
        ensures { result.events ≡ [] }
    {
        Journal {
            runs: Vec::new(alloc),
            acts: Vec::new(alloc),
            counted: [Event::Cpu, Event::Tick],
        }
    }

    /// Whether there is room for a run.
    #[inline(always)]
    pub fn has_room(&self) -> bool
        ensures { result ≡ nat_lt 0 self.now.spare }
    {
        self.runs.len() < self.runs.capacity() && self.acts.len() < self.acts.capacity()
    }

    /// Makes room for `runs` more runs.
    #[inline(always)]
    pub fn reserve(&mut self, runs: u32) -> Result<(), Memory>
        ensures events { self.new.events ≡ self.old.events }
        ensures room { OnOk result (runs ≤ self.new.spare) }
        ensures kept { self.old.spare ≤ self.new.spare }
        ensures same { OnErr result (self.new ≡ self.old) }
    {
        let runs = runs as usize;
        if room(&self.runs) < room(&self.acts) {
            self.acts.reserve(runs)?;
            self.runs.reserve(runs)?;
        } else {
            self.runs.reserve(runs)?;
            self.acts.reserve(runs)?;
        }
        Ok(())
    }

    /// Puts an event last. It takes no memory.
    #[inline]
    pub fn add(&mut self, event: Event)
        requires room { 0 < self.old.spare }
        requires few { length self.old.events < MAX_EVENTS }
        ensures events { self.new.events ≡ self.old.events ++ event ∷ [] }
        ensures spare { self.old.spare ≤ self.new.spare + 1 }
    {
        match event {
            Event::Cpu => self.add_steps(1),
            Event::Tick => self.add_ticks(1),
            Event::Act(lane, action) => self.add_act(lane, action),
        }
    }

    /// Puts `count` processor steps last. It takes no memory.
    #[inline(always)]
    pub fn add_steps(&mut self, count: u32)
        requires room { 0 < self.old.spare }
        requires some { 0 < count }
        requires few { length self.old.events + count ≤ MAX_EVENTS }
        ensures events { self.new.events ≡ self.old.events ++ replicate count Cpu }
        ensures spare { self.old.spare ≤ self.new.spare + 1 }
    {
        put_run(&mut self.runs, Run::Cpu(count));
    }

    /// Puts `count` ticks last. It takes no memory.
    #[inline(always)]
    pub fn add_ticks(&mut self, count: u32)
        requires room { 0 < self.old.spare }
        requires some { 0 < count }
        requires few { length self.old.events + count ≤ MAX_EVENTS }
        ensures events { self.new.events ≡ self.old.events ++ replicate count Tick }
        ensures spare { self.old.spare ≤ self.new.spare + 1 }
    {
        put_run(&mut self.runs, Run::Tick(count));
    }

    /// Puts `count` steps or ticks last.
    #[inline(always)]
    pub(crate) fn add_counted(&mut self, counted: Counted, count: u32)
        requires room { 0 < self.old.spare }
        requires some { 0 < count }
        requires few { length self.old.events + count ≤ MAX_EVENTS }
        ensures events { self.new.events ≡ self.old.events ++ replicate count (counted_event counted) }
        ensures spare { self.old.spare ≤ self.new.spare + 1 }
    {
        match counted {
            Counted::Steps => self.add_steps(count),
            Counted::Ticks => self.add_ticks(count),
        }
    }

    /// Puts an action of a lane last. It takes no memory.
    pub fn add_act(&mut self, lane: u32, action: Action)
        requires room { 0 < self.old.spare }
        requires few { length self.old.events < MAX_EVENTS }
        ensures events { self.new.events ≡ self.old.events ++ Act lane action ∷ [] }
        ensures spare { self.old.spare ≤ self.new.spare + 1 }
    {
        let number = self.acts.len() as u32;
        self.acts.push_reserved(Event::Act(lane, action));
        put_run(&mut self.runs, Run::Act(number));
    }

    /// Puts a run last.
    pub(crate) fn add_run(&mut self, run: EventRun)
        requires room { 0 < self.old.spare }
        requires form { IsTrue (is_run run) }
        requires few { length self.old.events + run.count ≤ MAX_EVENTS }
        ensures events { self.new.events ≡ self.old.events ++ replicate run.count run.event }
        ensures spare { self.old.spare ≤ self.new.spare + 1 }
    {
        let EventRun { event, count } = run;
        match event {
            Event::Cpu => self.add_steps(count),
            Event::Tick => self.add_ticks(count),
            Event::Act(lane, action) => self.add_act(lane, action),
        }
    }

    /// The number of runs.
    #[inline(always)]
    pub fn runs(&self) -> u32
        ensures { result ≡ length (joined self.now.events) }
    {
        self.runs.len() as u32
    }

    /// Run `i`, counted from 0.
    #[inline(always)]
    pub fn run_at(&self, i: u32) -> EventsLent<'_>
        requires { i < length (joined self.now.events) }
        ensures { (d : EventRun) → seen_run result ≡ slice_index_or (joined self.now.events) i d }
    {
        match self.runs[i as usize] {
            Run::Cpu(count) => EventsLent::Cpu(count),
            Run::Tick(count) => EventsLent::Tick(count),
            Run::Act(number) => single(&self.acts[number as usize]),
        }
    }

    /// The event of run `i`, counted from 0.
    #[inline(always)]
    pub fn event_at(&self, i: u32) -> &Event
        requires { i < length (joined self.now.events) }
        ensures { (d : EventRun) → result.now ≡ (slice_index_or (joined self.now.events) i d).event }
    {
        match self.runs[i as usize] {
            Run::Cpu(_) => &self.counted[0],
            Run::Tick(_) => &self.counted[1],
            Run::Act(number) => &self.acts[number as usize],
        }
    }

    /// How often run `i` has its event.
    #[inline(always)]
    pub fn count_at(&self, i: u32) -> u32
        requires { i < length (joined self.now.events) }
        ensures { (d : EventRun) → result ≡ (slice_index_or (joined self.now.events) i d).count }
    {
        match self.runs[i as usize] {
            Run::Cpu(count) => count,
            Run::Tick(count) => count,
            Run::Act(_) => 1,
        }
    }
}

/// For how many more elements there is room.
#[inline(always)]
fn room<T>(items: &Vec<T>) -> usize
    ensures { result ≡ vec_capacity items.now - vec_len items.now }
{
    items.capacity() - items.len()
}
