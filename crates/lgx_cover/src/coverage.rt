// A controller whose executions are counted.
ghost use Rattle.std.specs.Prelude.{◌≡◌, ◌+◌, ◌<◌, ◌≤◌, [], ◌∷◌, ◌++◌, List, replicate, Ok, None, IfOk, OnOk};
ghost use Rattle.spec_base.specs.declared.limits.TheConstants.{MAX_EVENTS};
ghost use Rattle.spec_machine.specs.declared.event.Event.{Event as Events};
ghost use Rattle.spec_machine.specs.declared.event.Event.TheVariants.{Cpu};
ghost use Rattle.spec_machine.specs.Machine.{run};
ghost use Rattle.spec_machine.specs.Project.{Project as Projects};
ghost use Rattle.spec_tables.specs.Tasks.{chosen};
ghost use Rattle.lgx_cover.specs.Covers.{Covers, IsCoverage};

use crate::tables::Tables;
use lgx_core::{Begins, Controller, What};
use lgx_edit::Plant;
use lgx_journal::Event;
use lgx_num::Memory;
use std::alloc::Global;

/// A controller, and how often each instruction was executed.
#[derive(Drop)]
pub struct Coverage {
    controller: Controller,
    tables: Tables,
}

impl Coverage {
    /// Of a project's run without an event.
    pub(crate) fn new(alloc: Global, project: Plant) -> Result<Coverage, Memory>
        ensures { IfOk result (λ coverage. Covers coverage project []) }
    {
        let controller = Controller::new(alloc, project)?;
        Ok(Coverage {
            controller,
            tables: Tables::new(alloc),
        })
    }

    /// The counts of all versions so far.
    pub(crate) fn tables(&self) -> &Tables
        ensures { result.now ≡ self.now.tables }
    {
        &self.tables
    }

    /// One processor step, and what it did.
    #[inline(always)]
    fn step(&mut self) -> Result<What, Memory>
        requires coverage { IsCoverage self.old }
        requires room { self.old.controller.spent < MAX_EVENTS }
        ensures covers { (project : Projects) (events : List Events) → Covers self.old project events → OnOk result (Covers self.new project (events ++ Cpu ∷ [])) }
        ensures idle { (project : Projects) (events : List Events) → Covers self.old project events → result ≡ Ok What.Idle → chosen (run project events).table ≡ None }
        ensures spent { OnOk result (self.new.controller.spent ≡ self.old.controller.spent + 1) }
    {
        let executed = self.controller.executing();
        let moment = self.controller.cpu();
        self.tables.count(executed)?;
        self.tables.note(moment.what)?;
        Ok(moment.what)
    }

    /// `count` processor steps while no task is up.
    fn rest(&mut self, count: u32)
        requires room { self.old.controller.spent + count ≤ MAX_EVENTS }
        ensures { (project : Projects) (events : List Events) → Covers self.old project events → chosen (run project events).table ≡ None → Covers self.new project (events ++ replicate count Cpu) }
    {
        let mut left = count;
        let mut begins = Begins::new();
        while left > 0 {
            left -= self.controller.stretch(left, &mut begins).steps;
        }
    }

    /// `count` processor steps.
    pub(crate) fn steps(&mut self, count: u32) -> Result<(), Memory>
        requires coverage { IsCoverage self.old }
        requires room { self.old.controller.spent + count ≤ MAX_EVENTS }
        ensures { (project : Projects) (events : List Events) → Covers self.old project events → OnOk result (Covers self.new project (events ++ replicate count Cpu)) }
    {
        let mut left = count;
        while left > 0 {
            let what = self.step()?;
            left -= 1;
            if let What::Idle = what {
                self.rest(left);
                return Ok(());
            }
        }
        Ok(())
    }

    /// Takes an event, and counts what it executes.
    pub(crate) fn apply(&mut self, event: &Event) -> Result<(), Memory>
        requires coverage { IsCoverage self.old }
        requires room { self.old.controller.spent < MAX_EVENTS }
        ensures { (project : Projects) (events : List Events) → Covers self.old project events → OnOk result (Covers self.new project (events ++ event.now ∷ [])) }
    {
        match event {
            Event::Cpu => {
                self.step()?;
                Ok(())
            }
            Event::Tick => {
                self.controller.tick();
                Ok(())
            }
            Event::Act(lane, action) => {
                self.controller.act(*lane, action)?;
                Ok(())
            }
        }
    }
}
