// The parts of a controller.
use lgx_conn::Conns;
use lgx_edit::EditBook;
use lgx_engine::Position;
use lgx_fault::FaultLog;
use lgx_force::ForceTable;
use lgx_image::Image;
use lgx_num::{Flags, Items};
use lgx_sched::{Release, TaskTable};
use lgx_tags::TagTable;
use spec_language::TaskName;
use spec_machine::Mode;
use spec_tables::Fault;
use std::alloc::Global;

/// A program scan in progress: the number of its program, and whether it is the first since the change to Run.
#[derive(Clone, Copy)]
pub struct Scan {
    pub program: u32,
    pub first: bool,
}

/// What a task has beside its state in the table: how many of its programs ended since its release, the scan in progress, and
/// its flags. `position` is that of the scan; without a scan it is what an earlier one left, and its room is used again.
#[derive(Drop)]
pub struct Progress {
    pub ended: usize,
    pub scan: Option<Scan>,
    pub position: Position,
    pub flags: Flags,
}

/// All parts of a controller. Lists are in project order.
pub struct ControllerParts {
    /// What an accept takes its memory from; nothing else takes any.
    pub alloc: Global,
    pub tags: TagTable,
    pub names: Items<TaskName>,
    /// For each task the numbers of its programs, in the order in which they are scanned.
    pub schedule: Items<Items<u32>>,
    pub conns: Conns,
    pub mode: Mode,
    pub tick: u32,
    pub table: TaskTable,
    pub progress: Vec<Progress>,
    /// For each program whether its next scan is its first since the change to Run.
    pub firsts: Vec<bool>,
    pub image: Image,
    pub book: EditBook,
    pub forces: ForceTable,
    pub faults: FaultLog,
}

impl Drop for ControllerParts {
    fn drop(self) {
        let ControllerParts {
            alloc: _,
            tags: _,
            names: _,
            schedule: _,
            conns: _,
            mode: _,
            tick: _,
            table: _,
            progress: _,
            firsts: _,
            image: _,
            book: _,
            forces: _,
            faults: _,
        } = self;
    }
}

/// What a release was answered, and the fault of an overlap.
#[derive(Clone, Copy)]
pub struct Released {
    pub answer: Release,
    pub fault: Option<Fault>,
}
