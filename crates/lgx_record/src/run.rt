// A run of a project that goes on by the events that it takes.
use crate::changes::{log_changes, numbers_at, watch_all};
use crate::lines::{
    Stamp, log_begin, log_begins, log_fault, log_line, log_moment, log_tick_faults,
};
use crate::names::names_and_watches;
use lgx_core::{Begins, Controller};
use lgx_edit::Plant;
use lgx_journal::{Action, Event, EventsLent};
use lgx_num::Memory;
use lgx_watch::{Line, Log, Names, WatchIndex};
use std::alloc::Global;
use std::marker::Model;

/// A run of a project: its controller, and what the lines of its report are made with.
///
/// It keeps neither its events nor their lines, so its memory doesn't grow with them.
pub struct Run {
    controller: Controller,
    names: Names,
    steps: u32,
    watches: WatchIndex,
    /// The numbers of the watched places when they were last compared.
    values: Vec<i32>,
    /// The begins that the last stretch noted.
    begins: Begins,
}

impl Drop for Run {
    fn drop(self) {
        let Run {
            controller: _,
            names: _,
            steps: _,
            watches: _,
            values: _,
            begins: _,
        } = self;
    }
}

impl Model for Run {
    ghost use Rattle.std.specs.Coded.{codes, coded_list};
    ghost use Rattle.lgx_edit.specs.Codes.{view_code};
    ghost use Rattle.lgx_core.specs.Codes.{controller_code};
    ghost use Rattle.lgx_record.specs.RunView.{RunView};
    ghost use Rattle.lgx_record.specs.Codes.{run_code};

    ghost Value = { RunView };

    ghost coded = { run_code (controller_code (coded_list (view_code (Prim.hlevel codes) (Prim.hlevel codes) (Prim.hlevel codes))) (Prim.hlevel codes)) (Prim.hlevel codes) };

    ghost use Rattle.lgx_record.specs.RunView.{run_view};
    ghost use Rattle.lgx_record.specs.IsRunOf.{IsRun};

    ghost view = { λ r. run_view r.controller r.names r.steps r.watches r.values.items };

    ghost invariant = { λ r. IsRun (run_view r.controller r.names r.steps r.watches r.values.items) };
}

impl Run {
    ghost use Rattle.std.specs.Prelude.{◌≡◌, ◌+◌, ◌*◌, ◌≤◌, ◌<◌, ◌^◌, [], ◌∷◌, replicate, IfOk, OnOk, OnErr, IsTrue};
    ghost use Rattle.spec_base.specs.declared.limits.TheConstants.{MAX_EVENTS};
    ghost use Rattle.spec_machine.specs.declared.event.Event.TheVariants.{Cpu, Tick, Act};
    ghost use Rattle.spec_machine.specs.Events.{is_accept};
    ghost use Rattle.lgx_journal.specs.Runs.{seen_run};
    ghost use Rattle.lgx_record.specs.declared.lines.TheConstants.{MAX_EVENT_LINES};
    ghost use Rattle.lgx_record.specs.IsRunOf.{IsRunOf, IsRun};
    ghost use Rattle.lgx_record.specs.Extends.{Extends, events_in, is_accept_in};

    /// A project's run without an event. It takes all room but that of accepts. Out of memory is the one fault.
    pub fn of_project(alloc: Global, project: Plant) -> Result<Run, Memory>
        ensures { IfOk result (λ run. IsRunOf run project []) }
    {
        let (names, watches) = names_and_watches(alloc, project.parts())?;
        let mut controller = Controller::new(alloc, project)?;
        watch_all(&mut controller, watches.places());
        controller.clear_hits();
        let values = numbers_at(alloc, &controller, watches.places())?;
        Ok(Run {
            controller,
            names,
            steps: 0,
            watches,
            values,
            begins: Begins::new(),
        })
    }

    /// Every run is a run of some project.
    pub fn law_of_runs(&self)
        ensures { IsRun self.now }
    {
        let _ = &self.steps;
    }

    /// Takes equal events: processor steps, ticks, or an action. The lines of each go into the log, and are those of the report. Out
    /// of memory comes at an accept alone; then nothing changes.
    #[inline(always)]
    pub fn take(&mut self, run: EventsLent<'_>, log: &mut Log) -> Result<(), Memory>
        requires room { self.old.controller.spent + (seen_run run).count ≤ MAX_EVENTS }
        requires lost { log.old.lost + MAX_EVENT_LINES * (seen_run run).count < 2 ^ 63 }
        ensures all { OnOk result (Extends self.old self.new log.old log.new (events_in run.entry)) }
        ensures memory { OnErr result (IsTrue (is_accept_in run.entry)) }
        ensures unchanged { OnErr result (self.new ≡ self.old) }
        ensures no_line { OnErr result (log.new ≡ log.old) }
    {
        match run {
            EventsLent::Cpu(count) => {
                self.take_steps(count, log);
                Ok(())
            }
            EventsLent::Tick(count) => {
                self.take_ticks(count, log);
                Ok(())
            }
            EventsLent::Act(lane, action) => self.act(lane, action, log),
        }
    }

    /// `count` processor steps. One alone is made as a step, which costs less than a stretch of one. They take no memory.
    #[inline(always)]
    pub(crate) fn take_steps(&mut self, count: u32, log: &mut Log)
        requires room { self.old.controller.spent + count ≤ MAX_EVENTS }
        requires lost { log.old.lost + MAX_EVENT_LINES * count < 2 ^ 63 }
        ensures { Extends self.old self.new log.old log.new (replicate count Cpu) }
    {
        if count == 1 {
            self.step(log);
        } else {
            self.stretches(count, log);
        }
    }

    /// `count` processor steps, by stretches. They take no memory.
    #[inline(never)]
    fn stretches(&mut self, count: u32, log: &mut Log)
        requires room { self.old.controller.spent + count ≤ MAX_EVENTS }
        requires lost { log.old.lost + MAX_EVENT_LINES * count < 2 ^ 63 }
        ensures { Extends self.old self.new log.old log.new (replicate count Cpu) }
    {
        self.law_of_runs();
        let mut left = count;
        while left > 0 {
            left -= self.stretch(left, log);
        }
    }

    /// `count` ticks. One alone needs no loop. They take no memory.
    #[inline(always)]
    pub(crate) fn take_ticks(&mut self, count: u32, log: &mut Log)
        requires room { self.old.controller.spent + count ≤ MAX_EVENTS }
        requires lost { log.old.lost + MAX_EVENT_LINES * count < 2 ^ 63 }
        ensures { Extends self.old self.new log.old log.new (replicate count Tick) }
    {
        if count == 1 {
            self.tick(log);
        } else {
            self.ticks(count, log);
        }
    }

    /// `count` ticks, one after another. They take no memory.
    #[inline(never)]
    fn ticks(&mut self, count: u32, log: &mut Log)
        requires room { self.old.controller.spent + count ≤ MAX_EVENTS }
        requires lost { log.old.lost + MAX_EVENT_LINES * count < 2 ^ 63 }
        ensures { Extends self.old self.new log.old log.new (replicate count Tick) }
    {
        self.law_of_runs();
        for _ in 0..count {
            self.tick(log);
        }
    }

    /// At least one processor step and at most `most`, made by one stretch of the controller; how many were made. They take no
    /// memory.
    #[inline(always)]
    fn stretch(&mut self, most: u32, log: &mut Log) -> u32
        requires some { 0 < most }
        requires room { self.old.controller.spent + most ≤ MAX_EVENTS }
        requires lost { log.old.lost + MAX_EVENT_LINES * most < 2 ^ 63 }
        ensures takes { Extends self.old self.new log.old log.new (replicate result Cpu) }
        ensures some { 0 < result }
        ensures most { result ≤ most }
        ensures spent { self.new.controller.spent ≡ self.old.controller.spent + result }
    {
        let made = self.controller.stretch(most, &mut self.begins);
        let from = stamp(&self.controller, self.steps);
        log_begins(log, from, &self.begins);
        self.steps += made.steps;
        let at = stamp(&self.controller, self.steps);
        log_moment(log, at, &made.last);
        close(
            log,
            &mut self.values,
            at,
            &mut self.controller,
            &self.watches,
        );
        made.steps
    }

    /// One processor step. It takes no memory.
    #[inline(always)]
    fn step(&mut self, log: &mut Log)
        requires room { self.old.controller.spent < MAX_EVENTS }
        requires lost { log.old.lost + MAX_EVENT_LINES < 2 ^ 63 }
        ensures { Extends self.old self.new log.old log.new (Cpu ∷ []) }
    {
        let moment = self.controller.cpu();
        self.steps += 1;
        let at = stamp(&self.controller, self.steps);
        log_begin(log, at, moment.what);
        log_fault(log, at, &moment.fault);
        close(
            log,
            &mut self.values,
            at,
            &mut self.controller,
            &self.watches,
        );
    }

    /// One tick. It takes no memory.
    #[inline(always)]
    fn tick(&mut self, log: &mut Log)
        requires room { self.old.controller.spent < MAX_EVENTS }
        requires lost { log.old.lost + MAX_EVENT_LINES < 2 ^ 63 }
        ensures takes { Extends self.old self.new log.old log.new (Tick ∷ []) }
        ensures spent { self.new.controller.spent ≡ self.old.controller.spent + 1 }
    {
        let report = self.controller.tick();
        let at = stamp(&self.controller, self.steps);
        log_tick_faults(log, at, report);
        close(
            log,
            &mut self.values,
            at,
            &mut self.controller,
            &self.watches,
        );
    }

    /// An action of a lane. Out of memory comes at an accept alone; then nothing changes.
    pub(crate) fn act(&mut self, lane: u32, action: &Action, log: &mut Log) -> Result<(), Memory>
        requires room { self.old.controller.spent < MAX_EVENTS }
        requires lost { log.old.lost + MAX_EVENT_LINES < 2 ^ 63 }
        ensures takes { OnOk result (Extends self.old self.new log.old log.new (Act lane action.now ∷ [])) }
        ensures memory { OnErr result (IsTrue (is_accept action.now)) }
        ensures unchanged { OnErr result (self.new ≡ self.old) }
        ensures no_line { OnErr result (log.new ≡ log.old) }
    {
        let outcome = self.controller.act(lane, action)?;
        let at = stamp(&self.controller, self.steps);
        log_line(
            log,
            at,
            Line::Reply {
                lane,
                reply: outcome.reply,
            },
        );
        log_fault(log, at, &outcome.fault);
        close(
            log,
            &mut self.values,
            at,
            &mut self.controller,
            &self.watches,
        );
        Ok(())
    }

    /// The controller, after the events that were taken.
    pub fn controller(&self) -> &Controller
        ensures { result.now ≡ self.now.controller }
    {
        &self.controller
    }

    /// The names that the report's lines are written with.
    pub fn names(&self) -> &Names
        ensures { result.now ≡ self.now.names }
    {
        &self.names
    }

    /// The numbers at the watched places, in their order, as they were after the last event.
    pub fn values(&self) -> &[i32]
        ensures { result.now ≡ self.now.values }
    {
        &self.values
    }

    /// The number of processor steps so far.
    pub fn steps(&self) -> u32
        ensures { result ≡ self.now.steps }
    {
        self.steps
    }
}

ghost use Rattle.std.specs.Prelude.{◌≡◌, ◌+◌, ◌<◌, ◌^◌};
ghost use Rattle.spec_machine.specs.State.{State};
ghost use Rattle.lgx_image.specs.Grains.{NoneIsHit};
ghost use Rattle.lgx_journal.specs.Runs.{seen_run};
ghost use Rattle.lgx_journal.specs.Written.{event_run};
ghost use Rattle.lgx_watch.specs.declared.bits.TheConstants.{MAX_WATCHES};
ghost use Rattle.lgx_core.specs.Represents.{RepresentsController};
ghost use Rattle.lgx_record.specs.Changes.{numbers_at, AreInside, AreWatched, AreAsCompared};
ghost use Rattle.lgx_record.specs.EventLines.{Compared};

// ---- what is done to the parts of a run while it is between two events

/// The tick and the number of processor steps, as they are now.
#[inline(always)]
fn stamp(controller: &Controller, steps: u32) -> Stamp
    ensures step { result.step ≡ steps }
    ensures tick { (s : State) → RepresentsController controller.now s → result.tick ≡ s.tick }
{
    Stamp {
        tick: controller.now(),
        step: steps,
    }
}

/// Puts the lines of the watched places that changed into the log, and clears the hits if there are any.
#[inline(always)]
fn close(
    log: &mut Log,
    values: &mut Vec<i32>,
    at: Stamp,
    controller: &mut Controller,
    watches: &WatchIndex,
)
    requires inside { AreInside watches.now controller.old.parts.image.bytes }
    requires are_watched { AreWatched watches.now controller.old.parts.image.watched }
    requires compared { AreAsCompared watches.now values.old.items controller.old.parts.image }
    requires room { log.old.lost + MAX_WATCHES < 2 ^ 63 }
    ensures compared { (s : State) → RepresentsController controller.old s → Compared log.old log.new at values.old.items values.new.items (numbers_at s.image watches.now) }
    ensures represents { (s : State) → RepresentsController controller.old s → RepresentsController controller.new s }
    ensures spent { controller.new.spent ≡ controller.old.spent }
    ensures none_hit { NoneIsHit controller.new.parts.image }
    ensures watched { controller.new.parts.image.watched ≡ controller.old.parts.image.watched }
{
    log_changes(log, values, at, controller, watches);
}
