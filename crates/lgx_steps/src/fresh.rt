// A controller that was just made.
ghost use Rattle.std.specs.Prelude.{◌≡◌, ℕ, ◌<◌, length, IfOk};
ghost use Rattle.std.specs.List.{All, AllByRecursion as Each};
ghost use Rattle.spec_machine.specs.Project.{Project};
ghost use Rattle.spec_machine.specs.State.{start};
ghost use Rattle.spec_machine.specs.ValidProject.{IsValidProject};
ghost use Rattle.lgx_steps.specs.PartsView.{IsIdle};
ghost use Rattle.lgx_steps.specs.Represents.{RepresentsParts};
ghost use Rattle.lgx_steps.specs.Fresh.{AreProper, AreSmall, AreTablesOf, AreScansOf, IsOpened, IsTakenApart};

use crate::parts::{ControllerParts, Progress};
use lgx_conn::Conns;
use lgx_edit::{ConnDefs, EditBook, Plant, PlantParts, ProgramText, Schedule, TaskDefs, TaskNames};
use lgx_engine::Position;
use lgx_fault::FaultLog;
use lgx_force::ForceTable;
use lgx_image::Image;
use lgx_num::{Flags, Memory};
use lgx_sched::TaskTable;
use lgx_tags::TagTable;
use spec_machine::Mode;
use spec_tables::{ConnDef, TaskDef};
use std::alloc::Global;

/// The progress of `tasks` tasks that have begun nothing.
fn idle(alloc: Global, book: &EditBook, tasks: usize) -> Result<Vec<Progress>, Memory>
    requires { 0 < length book.now }
    ensures many { IfOk result (λ all. length all.items ≡ tasks) }
    ensures idle { IfOk result (λ all. Each IsIdle all.items) }
{
    let mut all = Vec::with_capacity(alloc, tasks)?;
    for _task in 0..tasks {
        all.push(Progress {
            ended: 0,
            scan: None,
            position: Position::start(book.selected(0)),
            flags: Flags {
                v: false,
                z: false,
                n: false,
            },
        })?;
    }
    Ok(all)
}

/// What a controller keeps of its project beside the programs, and what its tables are made of.
#[derive(Drop)]
pub(crate) struct OtherParts {
    pub(crate) tags: TagTable,
    pub(crate) tasks: TaskDefs,
    pub(crate) names: TaskNames,
    pub(crate) schedule: Schedule,
    pub(crate) conns: ConnDefs,
    pub(crate) image: Image,
}

/// A project that is taken apart: its programs, and the rest.
#[derive(Drop)]
pub(crate) struct Opened {
    pub(crate) texts: Vec<ProgramText>,
    pub(crate) kept: Box<OtherParts>,
}

/// Takes a project apart.
fn take_apart(alloc: Global, project: Plant) -> Result<Opened, Memory>
    ensures { IfOk result (λ opened. IsOpened project opened) }
{
    let (texts, kept) = take_parts(project.into_parts());
    let boxed = Box::new(alloc, kept)?;
    Ok(Opened { texts, kept: boxed })
}

/// Takes the parts of a project apart.
fn take_parts(project: PlantParts) -> (Vec<ProgramText>, OtherParts)
    ensures { IsTakenApart project result.0.items result.1 }
{
    let PlantParts {
        tags,
        texts,
        tasks,
        names,
        schedule,
        conns,
        image,
        watches: _watches,
    } = project;
    let kept = OtherParts {
        tags,
        tasks,
        names,
        schedule,
        conns,
        image,
    };
    (texts.into_vec(), kept)
}

/// The tables of tasks, of connections and of forces.
#[derive(Drop)]
pub(crate) struct Tables {
    pub(crate) table: TaskTable,
    pub(crate) conns: Conns,
    pub(crate) forces: ForceTable,
}

/// The tables of these tasks and connections: no task is up, and nothing is forced.
fn tables_of(alloc: Global, tasks: &[TaskDef], conns: &[ConnDef]) -> Result<Tables, Memory>
    requires tasks { AreProper tasks.now }
    requires conns { AreSmall conns.now }
    ensures { IfOk result (λ made. AreTablesOf tasks.now conns.now made) }
{
    let conns = Conns::new(alloc, conns)?;
    let forces = ForceTable::new(alloc, conns.words())?;
    let table = TaskTable::new(alloc, tasks)?;
    Ok(Tables {
        table,
        conns,
        forces,
    })
}

/// The books of programs, the tasks' progress, and the marks of first scans.
#[derive(Drop)]
pub(crate) struct Scans {
    pub(crate) book: EditBook,
    pub(crate) progress: Vec<Progress>,
    pub(crate) firsts: Vec<bool>,
}

/// What is kept of the scans of these programs in `tasks` tasks: none has begun.
fn scans_of(alloc: Global, texts: Vec<ProgramText>, tasks: usize) -> Result<Scans, Memory>
    requires mains { All (λ q. q.main < length q.routines) texts.items }
    requires some { 0 < length texts.items }
    ensures { IfOk result (λ made. AreScansOf texts.items tasks made) }
{
    let programs = texts.len();
    let book = EditBook::new(alloc, texts)?;
    let progress = idle(alloc, &book, tasks)?;
    let firsts = vec![in alloc; false; programs]?;
    Ok(Scans {
        book,
        progress,
        firsts,
    })
}

/// The parts of a controller in Program at tick 0, with no task up.
fn parts_of(
    alloc: Global,
    kept: OtherParts,
    tables: Tables,
    scans: Scans,
    faults: FaultLog,
) -> ControllerParts
    ensures { result ≡ record {
      alloc = alloc;
      tags = kept.tags;
      names = kept.names;
      schedule = kept.schedule;
      conns = tables.conns;
      mode = Mode.Program;
      tick = 0;
      table = tables.table;
      progress = scans.progress;
      firsts = scans.firsts;
      image = kept.image;
      book = scans.book;
      forces = tables.forces;
      faults = faults;
    } }
{
    let OtherParts {
        tags,
        tasks: _tasks,
        names,
        schedule,
        conns: _conns,
        image,
    } = kept;
    let Tables {
        table,
        conns,
        forces,
    } = tables;
    let Scans {
        book,
        progress,
        firsts,
    } = scans;
    ControllerParts {
        alloc,
        tags,
        names,
        schedule,
        conns,
        mode: Mode::Program,
        tick: 0,
        table,
        progress,
        firsts,
        image,
        book,
        forces,
        faults,
    }
}

impl ControllerParts {
    /// The parts of a controller in Program at tick 0, with no task up.
    pub fn new(alloc: Global, project: Plant) -> Result<ControllerParts, Memory>
        ensures represents { IfOk result (λ parts. RepresentsParts 0 parts (start project)) }
        ensures valid { IfOk result (λ _. IsValidProject project) }
    {
        let faults = FaultLog::new(alloc)?;
        let Opened { texts, kept } = take_apart(alloc, project)?;
        let tables = tables_of(alloc, kept.tasks.as_slice(), kept.conns.as_slice())?;
        let boxed = Box::new(alloc, tables)?;
        let scans = scans_of(alloc, texts, kept.schedule.len())?;
        let kept = Box::into_inner(kept);
        let tables = Box::into_inner(boxed);
        Ok(parts_of(alloc, kept, tables, scans, faults))
    }
}
