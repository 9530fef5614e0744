// A book of edits over tags that are the same in all rows.
ghost use Rattle.std.specs.Prelude.{◌^◌, ◌≡◌, ◌<◌, false, true, [], length, map, Ok, IfOk, OnOk};
ghost use Rattle.spec_language.specs.Checked.{checked};
ghost use Rattle.spec_machine.specs.Edits.{book_of};
ghost use Rattle.lgx_check.specs.Scopes.{scope_of};
ghost use Rattle.lgx_edit.specs.Texts.{program_of};
ghost use Rattle.lgx_edit.specs.EditsView.{books};
ghost use Rattle.test_edits.specs.Mains.{has_main, have_mains};
ghost use Rattle.test_edits.specs.Programs.{AreRoutines, IsProgram, ArePrograms};

use crate::trouble::Trouble;
use lgx_check::{CheckScope, check_routine};
use lgx_edit::{EditBook, EditError, ProgramText, RoutineText};
use lgx_neutral::read_rung;
use lgx_num::{Items, Memory, Name, Operand};
use lgx_prog::{Code, FlatProgram};
use lgx_rung::SourceRung;
use lgx_tags::TagTable;
use lgx_types::TypeTable;
use spec_base::limits::MAX_FILE_BYTES;
use spec_language::{Base, DataType, Scope};
use spec_machine::{Accept, Action, EditFault};
use std::alloc::Global;
use std::marker::Model;

/// The book of some programs, and the tags that their rungs name. The checked rungs of the book are those that its source
/// rungs give.
///
/// Contracts see the book.
#[derive(Drop)]
pub struct Bench {
    book: EditBook,
    tags: Box<TagTable>,
}

impl Model for Bench {
    ghost use Rattle.std.specs.Prelude.{List};
    ghost use Rattle.std.specs.Coded.{codes, coded_list};
    ghost use Rattle.lgx_edit.specs.EditsView.{EditsView};
    ghost use Rattle.lgx_edit.specs.Codes.{view_code};

    ghost Value = { List EditsView };

    ghost coded = { coded_list (view_code (Prim.hlevel codes) (Prim.hlevel codes) (Prim.hlevel codes)) };

    ghost view = { λ b. b.book };

    ghost use Rattle.test_edits.specs.Benches.{IsBench};

    ghost invariant = { IsBench };
}

/// The tags of all rows: `n`, a DINT, and `x`, a BOOL.
fn tags(alloc: Global) -> Result<Box<TagTable>, Trouble>
    ensures { IfOk result (λ table. table.value.sealed ≡ true) }
{
    let types = TypeTable::build(alloc, &[])?;
    let mut table = Box::new(alloc, TagTable::new(alloc, types, 0)?)?;
    declare_all(&mut table)?;
    Ok(table)
}

/// Declares the tags, and seals the table.
fn declare_all(table: &mut TagTable) -> Result<(), Trouble>
    requires { table.old.sealed ≡ false }
    ensures { OnOk result (table.new.sealed ≡ true) }
{
    let number = DataType {
        base: Base::Dint,
        dim: 0,
    };
    table.declare(Scope::Controller, b"n", number)?;
    let bit = DataType {
        base: Base::Bool,
        dim: 0,
    };
    table.declare(Scope::Controller, b"x", bit)?;
    table.seal()?;
    Ok(())
}

/// The rungs of a text.
fn rungs_of(alloc: Global, text: &str) -> Result<Vec<SourceRung>, Trouble> {
    let mut rungs = Vec::new(alloc);
    for piece in text.split_inclusive(';') {
        if !piece.trim().is_empty() {
            rungs.push(rung_of(alloc, piece.as_bytes())?)?;
        }
    }
    Ok(rungs)
}

fn rung_of(alloc: Global, text: &[u8]) -> Result<SourceRung, Trouble> {
    if text.len() > MAX_FILE_BYTES {
        return Err(Trouble::Form);
    }
    Ok(read_rung(alloc, text)?)
}

fn name_of(text: &str) -> Result<Name, Trouble> {
    let name = text.split_whitespace().next().ok_or(Trouble::Form)?;
    Name::read(name.as_bytes()).ok_or(Trouble::Form)
}

/// A routine whose rungs aren't checked yet.
#[derive(Drop)]
struct UncheckedRoutine {
    name: Name,
    source: Vec<SourceRung>,
}

/// The routine of a text.
fn unchecked(alloc: Global, text: &str) -> Result<UncheckedRoutine, Trouble> {
    let (_, rungs) = text.trim().split_once(' ').unwrap_or((text, ""));
    Ok(UncheckedRoutine {
        name: name_of(text)?,
        source: rungs_of(alloc, rungs)?,
    })
}

/// The routines of a program's text.
fn all_unchecked(alloc: Global, parts: &str) -> Result<Vec<UncheckedRoutine>, Trouble> {
    let mut routines = Vec::new(alloc);
    for part in parts.split('&') {
        routines.push(unchecked(alloc, part)?)?;
    }
    Ok(routines)
}

/// The names of these routines.
fn names_of(alloc: Global, routines: &[UncheckedRoutine]) -> Result<Vec<Name>, Memory>
    ensures { IfOk result (λ names. names.items ≡ map (λ r. r.name) routines.now) }
{
    let mut names = Vec::with_capacity(alloc, routines.len())?;
    for routine in routines {
        names.push(routine.name.copied())?;
    }
    Ok(names)
}

/// The routine with its rungs checked.
fn routine_of(
    alloc: Global,
    scope: &CheckScope,
    routine: UncheckedRoutine,
) -> Result<RoutineText, Trouble>
    requires sealed { scope.now.tags.now.sealed ≡ true }
    requires few_routines { length scope.now.routines.now < 2 ^ 32 }
    requires few_tasks { length scope.now.tasks.now < 2 ^ 32 }
    ensures name { IfOk result (λ r. r.name ≡ routine.name) }
    ensures checked { IfOk result (λ r. checked (scope_of scope.now) r.source ≡ Ok r.checked) }
{
    let UncheckedRoutine { name, source } = routine;
    let checked = check_routine(alloc, source.as_slice(), scope)?;
    Ok(RoutineText {
        name,
        source: Items::of(source),
        checked,
    })
}

/// The program of a text, which is number `program` of all.
fn program_of(
    alloc: Global,
    tags: &TagTable,
    program: u32,
    text: &str,
) -> Result<ProgramText, Trouble>
    requires { tags.now.sealed ≡ true }
    ensures { IfOk result (λ p. IsProgram tags.now.declarations program p) }
{
    let (_, parts) = text.trim().split_once(' ').ok_or(Trouble::Form)?;
    let name = name_of(text)?;
    let unchecked = all_unchecked(alloc, parts)?;
    let routines = routines_of(alloc, tags, program, unchecked)?;
    Ok(ProgramText {
        name,
        routines: Items::of(routines),
        main: 0,
    })
}

/// These routines of a program, with their rungs checked.
fn routines_of(
    alloc: Global,
    tags: &TagTable,
    program: u32,
    unchecked: Vec<UncheckedRoutine>,
) -> Result<Vec<RoutineText>, Trouble>
    requires { tags.now.sealed ≡ true }
    ensures { IfOk result (λ routines. AreRoutines tags.now.declarations program routines.items) }
{
    let names = names_of(alloc, unchecked.as_slice())?;
    if names.len() > u32::MAX as usize {
        return Err(Trouble::Form);
    }
    let scope = CheckScope {
        tags,
        program,
        routines: names.as_slice(),
        tasks: &[],
    };
    let mut routines = Vec::new(alloc);
    for routine in unchecked {
        routines.push(routine_of(alloc, &scope, routine)?)?;
    }
    Ok(routines)
}

/// Whether the main routine is there.
fn has_main(program: &ProgramText) -> bool
    ensures { result ≡ has_main program.now }
{
    (program.main as usize) < program.routines.len()
}

/// Whether each program has its main routine.
fn have_mains(programs: &[ProgramText]) -> bool
    ensures { result ≡ have_mains programs.now }
{
    for program in programs {
        if !has_main(program) {
            return false;
        }
    }
    true
}

fn book_of(alloc: Global, programs: Vec<ProgramText>) -> Result<EditBook, Trouble>
    ensures { IfOk result (λ b. books b ≡ map (λ p. book_of (program_of p)) programs.items) }
{
    if !have_mains(programs.as_slice()) {
        return Err(Trouble::Form);
    }
    Ok(EditBook::new(alloc, programs)?)
}

/// The programs of a text.
fn programs_of(alloc: Global, tags: &TagTable, text: &str) -> Result<Vec<ProgramText>, Trouble>
    requires { tags.now.sealed ≡ true }
    ensures { IfOk result (λ programs. ArePrograms tags.now.declarations programs.items) }
{
    let mut programs = Vec::new(alloc);
    for program in text.split('%') {
        let number = programs.len();
        if number > u32::MAX as usize {
            return Err(Trouble::Form);
        }
        programs.push(program_of(alloc, tags, number as u32, program.trim())?)?;
    }
    Ok(programs)
}

impl Bench {
    /// The book of programs `NAME ROUTINE & ROUTINE % ..`. A routine is its name and its rungs; the first of a
    /// program is its main one.
    pub fn load(alloc: Global, text: &str) -> Result<Bench, Trouble> {
        let tags = tags(alloc)?;
        let programs = programs_of(alloc, &tags, text)?;
        let book = book_of(alloc, programs)?;
        Ok(Bench { book, tags })
    }

    /// An accept of a lane.
    pub fn accept(&mut self, alloc: Global, lane: u32, command: &Accept) -> Result<u32, EditError> {
        if !self.book.has_numbers_left() {
            return Err(EditError::Memory);
        }
        self.book.accept(alloc, lane, command, &self.tags, &[])
    }

    /// Another edit command of a lane; None if the action is none.
    pub fn edit(&mut self, lane: u32, action: &Action) -> Option<Result<(), EditFault>> {
        match action {
            Action::Test(program) => Some(self.book.test(lane, program)),
            Action::Untest(program) => Some(self.book.untest(lane, program)),
            Action::Assemble(program) => Some(self.book.assemble(lane, program)),
            Action::Cancel(program) => Some(self.book.cancel(lane, program)),
            _ => None,
        }
    }

    /// Holds the selected program of a program, if none is held.
    pub fn hold(&mut self, program: u32) -> Option<u32> {
        if program >= self.book.len() || self.book.held(program).is_some() {
            return None;
        }
        Some(self.book.hold(program))
    }

    pub fn drop_hold(&mut self, program: u32) {
        if program < self.book.len() {
            self.book.drop_hold(program);
        }
    }

    /// The number in a slot.
    pub fn slot(&self, program: u32, i: u32) -> Option<u32> {
        if program >= self.book.len() || i >= 3 {
            return None;
        }
        self.book.slot(program, i)
    }

    /// The rungs of a routine of the selected program, or of the held one: `/` before each rung, and then the numbers
    /// that its instructions name first.
    pub fn text(
        &self,
        alloc: Global,
        program: u32,
        routine: usize,
        is_held: bool,
    ) -> Result<String, Trouble> {
        let mut text = String::new(alloc);
        if let Some(flat) = self.flat(program, is_held) {
            write_code(&mut text, flat, routine)?;
        }
        Ok(text)
    }

    /// The selected program of a program, or the held one.
    fn flat(&self, program: u32, is_held: bool) -> Option<&FlatProgram> {
        if program >= self.book.len() {
            None
        } else if is_held {
            self.book.held(program)
        } else {
            Some(self.book.selected(program))
        }
    }
}

fn write_code(text: &mut String, flat: &FlatProgram, routine: usize) -> Result<(), Trouble> {
    for code in flat.code(routine) {
        match code {
            Code::RungStart => text.push('/')?,
            Code::Execute(prepared) => write_operand(text, prepared.args().first())?,
            _ => {}
        }
    }
    Ok(())
}

fn write_operand(text: &mut String, operand: Option<&Operand>) -> Result<(), Trouble> {
    match operand {
        Some(Operand::Number(number)) => write!(text, "{number}.")?,
        _ => text.push('.')?,
    }
    Ok(())
}
