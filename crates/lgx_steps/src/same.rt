// The parts of a controller copied and compared.
ghost use Rattle.std.specs.Prelude.{◌≡◌, ◌<◌, true, length, IfOk};
ghost use Rattle.lgx_steps.specs.PartsView.{plan_of, view_of};
ghost use Rattle.lgx_steps.specs.Represents.{IsLive};

use crate::parts::{ControllerParts, Progress, Scan};
use lgx_conn::Conns;
use lgx_edit::{EditBook, Schedule, TaskNames};
use lgx_engine::Position;
use lgx_fault::FaultLog;
use lgx_force::ForceTable;
use lgx_image::Image;
use lgx_num::{Flags, Items, Memory};
use lgx_prog::FlatProgram;
use lgx_sched::TaskTable;
use lgx_tags::TagTable;
use spec_language::TaskName;
use spec_machine::Mode;
use std::alloc::Global;

// ---- what no event changes

/// Whether the names of two tasks are the same, and both or none is an event task.
fn same_task(a: &TaskName, b: &TaskName) -> bool
    ensures { result ≡ true → a.now ≡ b.now }
{
    a.event == b.event && a.name.is_spelled_as(&b.name)
}

/// The names of the tasks once more.
fn names_again(alloc: Global, names: &[TaskName]) -> Result<TaskNames, Memory>
    ensures { IfOk result (λ copy. copy ≡ names.now) }
{
    let mut list = Vec::with_capacity(alloc, names.len())?;
    for task in names {
        list.push(TaskName {
            name: task.name.copied(),
            event: task.event,
        })?;
    }
    Ok(Items::of(list))
}

/// Whether the names of the tasks are the same, one by one.
fn same_names(a: &[TaskName], b: &[TaskName]) -> bool
    ensures { result ≡ true → a.now ≡ b.now }
{
    if a.len() != b.len() {
        return false;
    }
    for i in 0..a.len() {
        if !same_task(&a[i], &b[i]) {
            return false;
        }
    }
    true
}

/// The lists of programs once more.
fn schedule_again(alloc: Global, schedule: &[Items<u32>]) -> Result<Schedule, Memory>
    ensures { IfOk result (λ copy. copy ≡ schedule.now) }
{
    let mut list = Vec::with_capacity(alloc, schedule.len())?;
    for programs in schedule {
        let copy = Vec::from_slice(alloc, programs.as_slice())?;
        list.push(Items::of(copy))?;
    }
    Ok(Items::of(list))
}

/// Whether the programs of two tasks are the same, one by one.
fn same_programs(a: &[u32], b: &[u32]) -> bool
    ensures { result ≡ true → a.now ≡ b.now }
{
    if a.len() != b.len() {
        return false;
    }
    for i in 0..a.len() {
        if a[i] != b[i] {
            return false;
        }
    }
    true
}

/// Whether the lists of programs are the same, one by one.
fn same_schedule(a: &[Items<u32>], b: &[Items<u32>]) -> bool
    ensures { result ≡ true → a.now ≡ b.now }
{
    if a.len() != b.len() {
        return false;
    }
    for i in 0..a.len() {
        if !same_programs(a[i].as_slice(), b[i].as_slice()) {
            return false;
        }
    }
    true
}

/// What no event changes: the tags, the tasks' names and programs, and the connections.
#[derive(Drop)]
pub(crate) struct Lasting {
    pub(crate) tags: TagTable,
    pub(crate) names: TaskNames,
    pub(crate) schedule: Schedule,
    pub(crate) conns: Conns,
}

/// What no event changes once more.
fn lasting_again(alloc: Global, parts: &ControllerParts) -> Result<Lasting, Memory>
    ensures { IfOk result (λ copy. copy ≡ record { tags = parts.now.tags; names = parts.now.names; schedule = parts.now.schedule; conns = parts.now.conns }) }
{
    let tags = parts.tags.copied(alloc)?;
    let names = names_again(alloc, parts.names.as_slice())?;
    let schedule = schedule_again(alloc, parts.schedule.as_slice())?;
    let conns = parts.conns.copied(alloc)?;
    Ok(Lasting {
        tags,
        names,
        schedule,
        conns,
    })
}

/// Whether what no event changes is the same in both.
fn same_lasting(a: &ControllerParts, b: &ControllerParts) -> bool
    ensures plan { result ≡ true → plan_of a.now ≡ plan_of b.now }
    ensures sealed { result ≡ true → a.now.tags.sealed ≡ b.now.tags.sealed }
{
    same_schedule(a.schedule.as_slice(), b.schedule.as_slice())
        && same_names(a.names.as_slice(), b.names.as_slice())
        && a.conns.is_same(&b.conns)
        && a.tags.is_same(&b.tags)
}

// ---- tasks and their scans

fn same_flags(a: Flags, b: Flags) -> bool
    ensures { result ≡ true → a ≡ b }
{
    a == b
}

/// Whether the same scan is in progress, or none.
fn same_scan(a: Option<Scan>, b: Option<Scan>) -> bool
    ensures { result ≡ true → a ≡ b }
{
    match (a, b) {
        (None, None) => true,
        (Some(x), Some(y)) => x.program == y.program && x.first == y.first,
        _ => false,
    }
}

impl Progress {
    /// The progress once more. Its position has room for that of any program, so it may be begun with any.
    fn copied(&self, program: &FlatProgram) -> Progress
        ensures { result ≡ self.now }
    {
        let mut position = Position::start(program);
        position.copy_from(&self.position);
        Progress {
            ended: self.ended,
            scan: self.scan,
            position,
            flags: self.flags,
        }
    }

    /// Whether the progress is the same, with what an earlier scan left.
    fn is_same(&self, other: &Progress) -> bool
        ensures { result ≡ true → self.now ≡ other.now }
    {
        self.ended == other.ended
            && same_scan(self.scan, other.scan)
            && same_flags(self.flags, other.flags)
            && self.position.is_same(&other.position)
    }
}

/// The progress of all tasks once more. Where there is a task, there must be a program.
fn progress_again(alloc: Global, all: &[Progress], book: &EditBook) -> Result<Vec<Progress>, Memory>
    requires { 0 < length all.now → 0 < length book.now }
    ensures { IfOk result (λ copy. copy.items ≡ all.now) }
{
    let mut list = Vec::with_capacity(alloc, all.len())?;
    for progress in all {
        list.push(progress.copied(book.selected(0)))?;
    }
    Ok(list)
}

/// Whether the progress of all tasks is the same, one by one.
fn same_progress(a: &[Progress], b: &[Progress]) -> bool
    ensures { result ≡ true → a.now ≡ b.now }
{
    if a.len() != b.len() {
        return false;
    }
    for i in 0..a.len() {
        if !a[i].is_same(&b[i]) {
            return false;
        }
    }
    true
}

/// Whether the programs' next scans are first ones in both.
fn same_firsts(a: &[bool], b: &[bool]) -> bool
    ensures { result ≡ true → a.now ≡ b.now }
{
    if a.len() != b.len() {
        return false;
    }
    for i in 0..a.len() {
        if a[i] != b[i] {
            return false;
        }
    }
    true
}

/// The tasks, their progress, and the programs with their edits.
#[derive(Drop)]
pub(crate) struct Running {
    pub(crate) table: TaskTable,
    pub(crate) progress: Vec<Progress>,
    pub(crate) firsts: Vec<bool>,
    pub(crate) book: EditBook,
}

/// The tasks, their progress, and the programs once more. Where there is a task, there must be a program.
fn running_again(alloc: Global, parts: &ControllerParts) -> Result<Running, Memory>
    requires { 0 < length parts.now.progress.items → 0 < length parts.now.book }
    ensures table { IfOk result (λ copy. copy.table ≡ parts.now.table) }
    ensures progress { IfOk result (λ copy. copy.progress.items ≡ parts.now.progress.items) }
    ensures firsts { IfOk result (λ copy. copy.firsts.items ≡ parts.now.firsts.items) }
    ensures book { IfOk result (λ copy. copy.book ≡ parts.now.book) }
{
    let book = parts.book.copied(alloc)?;
    let progress = progress_again(alloc, &parts.progress, &parts.book)?;
    let firsts = Vec::from_slice(alloc, &parts.firsts)?;
    let table = parts.table.copied(alloc)?;
    Ok(Running {
        table,
        progress,
        firsts,
        book,
    })
}

/// Whether the tasks, their progress, and the programs are the same in both.
fn same_running(a: &ControllerParts, b: &ControllerParts) -> bool
    ensures table { result ≡ true → a.now.table ≡ b.now.table }
    ensures progress { result ≡ true → a.now.progress.items ≡ b.now.progress.items }
    ensures firsts { result ≡ true → a.now.firsts.items ≡ b.now.firsts.items }
    ensures book { result ≡ true → a.now.book ≡ b.now.book }
{
    a.table.is_same(&b.table)
        && same_progress(&a.progress, &b.progress)
        && same_firsts(&a.firsts, &b.firsts)
        && a.book.is_same(&b.book)
}

// ---- all parts

/// The image, the forces and the log of faults.
#[derive(Drop)]
pub(crate) struct Words {
    pub(crate) image: Image,
    pub(crate) forces: ForceTable,
    pub(crate) faults: FaultLog,
}

/// The image, the forces and the log of faults once more.
fn words_again(alloc: Global, parts: &ControllerParts) -> Result<Words, Memory>
    ensures { IfOk result (λ copy. copy ≡ record { image = parts.now.image; forces = parts.now.forces; faults = parts.now.faults }) }
{
    let image = parts.image.copied(alloc)?;
    let forces = parts.forces.copied(alloc)?;
    let faults = parts.faults.copied(alloc)?;
    Ok(Words {
        image,
        forces,
        faults,
    })
}

/// Whether the image, the forces and the log of faults are the same in both.
fn same_words(a: &ControllerParts, b: &ControllerParts) -> bool
    ensures image { result ≡ true → a.now.image ≡ b.now.image }
    ensures forces { result ≡ true → a.now.forces ≡ b.now.forces }
    ensures faults { result ≡ true → a.now.faults ≡ b.now.faults }
{
    a.faults.is_same(&b.faults) && a.image.is_same(&b.image) && a.forces.is_same(&b.forces)
}

fn same_mode(a: Mode, b: Mode) -> bool
    ensures { result ≡ true → a ≡ b }
{
    a == b
}

/// All parts, of these.
fn together(
    alloc: Global,
    mode: Mode,
    tick: u32,
    lasting: Lasting,
    running: Running,
    words: Words,
) -> ControllerParts
    ensures { result ≡ record {
      alloc = alloc;
      tags = lasting.tags;
      names = lasting.names;
      schedule = lasting.schedule;
      conns = lasting.conns;
      mode = mode;
      tick = tick;
      table = running.table;
      progress = running.progress;
      firsts = running.firsts;
      image = words.image;
      book = running.book;
      forces = words.forces;
      faults = words.faults;
    } }
{
    let Lasting {
        tags,
        names,
        schedule,
        conns,
    } = lasting;
    let Running {
        table,
        progress,
        firsts,
        book,
    } = running;
    let Words {
        image,
        forces,
        faults,
    } = words;
    ControllerParts {
        alloc,
        tags,
        names,
        schedule,
        conns,
        mode,
        tick,
        table,
        progress,
        firsts,
        image,
        book,
        forces,
        faults,
    }
}

impl ControllerParts {
    /// The parts once more. A later accept takes its memory from `alloc`.
    pub fn again(&self, alloc: Global) -> Result<ControllerParts, Memory>
        requires { IsLive self.now }
        ensures { IfOk result (λ copy. view_of copy ≡ view_of self.now) }
    {
        let lasting = Box::new(alloc, lasting_again(alloc, self)?)?;
        let running = Box::new(alloc, running_again(alloc, self)?)?;
        let words = words_again(alloc, self)?;
        let lasting = Box::into_inner(lasting);
        let running = Box::into_inner(running);
        Ok(together(alloc, self.mode, self.tick, lasting, running, words))
    }

    /// Whether the parts are the same. What changes most is looked at first.
    pub fn is_same(&self, other: &ControllerParts) -> bool
        ensures { result ≡ true → view_of self.now ≡ view_of other.now }
    {
        self.tick == other.tick
            && same_mode(self.mode, other.mode)
            && same_words(self, other)
            && same_running(self, other)
            && same_lasting(self, other)
    }
}
