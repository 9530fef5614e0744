// A valid project, as a controller takes it.
use crate::texts::ProgramTexts;
use lgx_image::Image;
use lgx_num::{Items, Memory, Place};
use lgx_tags::TagTable;
use spec_language::TaskName;
use spec_tables::{ConnDef, TaskDef};
use std::alloc::Global;
use std::marker::Model;

/// A watched place: its text as the project has it.
#[derive(Drop)]
pub struct Watch {
    pub text: Items<u8>,
    pub place: Place,
}

pub type TaskDefs = Items<TaskDef>;

pub type TaskNames = Items<TaskName>;

/// For each task the numbers of its programs, in the order in which they are scanned.
pub type Schedule = Items<Items<u32>>;

pub type ConnDefs = Items<ConnDef>;

pub type Watches = Items<Watch>;

/// The parts of a project that a controller can run: its sealed tags with their values at the start, its programs, its tasks
/// with their names and programs, its connections and its watched places. All lists are in project order.
///
/// Contracts see the machine's project. Each value is a valid one: whoever makes it shows so.
#[derive(Drop)]
pub struct PlantParts {
    pub tags: TagTable,
    pub texts: ProgramTexts,
    pub tasks: TaskDefs,
    pub names: TaskNames,
    pub schedule: Schedule,
    pub conns: ConnDefs,
    pub image: Image,
    pub watches: Watches,
}

impl Model for PlantParts {
    ghost use Rattle.std.specs.Coded.{codes};
    ghost use Rattle.spec_machine.specs.Project.{Project};
    ghost use Rattle.lgx_edit.specs.ProjectCode.{project_code};

    ghost Value = { Project };

    ghost coded = { project_code (Prim.hlevel codes) (Prim.hlevel codes) (Prim.hlevel codes) };

    ghost use Rattle.lgx_edit.specs.Plants.{project_of, IsPlant};

    ghost view = { project_of };

    ghost invariant = { IsPlant };
}

impl PlantParts {
    ghost use Rattle.spec_machine.specs.ValidProject.{IsValidProject};

    /// Every project is valid.
    pub fn law_of_validity(&self)
        ensures { IsValidProject self.now }
    {
        let _ = &self.tags;
    }
}

/// A project that a controller can run.
///
/// Contracts see the machine's project, a valid one. Its parts lie in a box, so that whoever owns a project owns one value, and
/// not each of its lists.
pub struct Plant {
    parts: Box<PlantParts>,
}

impl Drop for Plant {
    fn drop(self) {
        let Plant { parts: _ } = self;
    }
}

impl Model for Plant {
    ghost use Rattle.std.specs.Coded.{codes};
    ghost use Rattle.spec_machine.specs.Project.{Project};
    ghost use Rattle.lgx_edit.specs.ProjectCode.{project_code};

    ghost Value = { Project };

    ghost coded = { project_code (Prim.hlevel codes) (Prim.hlevel codes) (Prim.hlevel codes) };

    ghost view = { λ p. p.parts.value };
}

impl Plant {
    ghost use Rattle.std.specs.Prelude.{◌≡◌, IfOk};

    /// The project of these parts. Out of memory comes if there is no room for the box.
    pub fn of(alloc: Global, parts: PlantParts) -> Result<Plant, Memory>
        ensures { IfOk result (λ plant. plant ≡ parts) }
    {
        let parts = Box::new(alloc, parts)?;
        Ok(Plant { parts })
    }

    /// The project's parts.
    pub fn parts(&self) -> &PlantParts
        ensures { result.now ≡ self.now }
    {
        &self.parts
    }

    /// The project's parts, out of the box.
    pub fn into_parts(self) -> PlantParts
        ensures { result ≡ self }
    {
        let Plant { parts } = self;
        Box::into_inner(parts)
    }
}
