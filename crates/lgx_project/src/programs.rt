// The rungs of programs, read and checked.
ghost use Rattle.std.specs.Prelude.{◌^◌, ◌≡◌, ◌<◌, true, codes, length, map, IfOk};
ghost use Rattle.spec_machine.specs.declared.limits.TheConstants.{MAX_PROGRAMS};
ghost use Rattle.spec_project.specs.Faults.{first_at, first_of, in_field};
ghost use Rattle.spec_project.specs.Limits.{IsListOf, IsSmallProgram};
ghost use Rattle.spec_project.specs.Names.{routine_names};
ghost use Rattle.spec_project.specs.Routines.{main_of, routine_fault};
ghost use Rattle.lgx_project.specs.Programs.{program_as, program_fault_in, programs_from, read_as, scope_in};
ghost use Rattle.lgx_json.specs.Answers.{Reads};

use crate::routines::read_routines;
use lgx_check::CheckScope;
use lgx_edit::{ProgramText, ProgramTexts, RoutineTexts};
use lgx_json::ProjectError;
use lgx_num::{Items, Memory, Name};
use lgx_tags::TagTable;
use spec_language::TaskName;
use spec_project::DescribedProgram;
use std::alloc::Global;

/// The names of a program's routines, in order.
fn names_of(alloc: Global, program: &DescribedProgram) -> Result<Vec<Name>, Memory>
    ensures { IfOk result (λ names. names.items ≡ routine_names program.now) }
{
    let mut names = Vec::new(alloc);
    for (i, routine) in program.routines.as_slice().iter().enumerate() {
        names.push(routine.name.copied())?;
    }
    Ok(names)
}

/// The number of a program's main routine: the first of its name, and 0 if there is none.
fn main_number(program: &DescribedProgram) -> u32
    requires { length program.now.routines < 2 ^ 32 }
    ensures { result ≡ main_of program.now }
{
    for (i, routine) in program.routines.as_slice().iter().enumerate() {
        if routine.name.same(&program.main) {
            return i as u32;
        }
    }
    0
}

/// A program's routines with their rungs, in order: P10 of the first that is refused.
fn own_routines(
    alloc: Global,
    tags: &TagTable,
    tasks: &[TaskName],
    number: u32,
    program: &DescribedProgram,
) -> Result<RoutineTexts, ProjectError>
    requires sealed { tags.now.sealed ≡ true }
    requires few_tasks { length tasks.now < 2 ^ 32 }
    requires small { IsSmallProgram program.now }
    ensures { let scope = scope_in tags.now.declarations tasks.now number program.now in Reads (in_field (codes "routines") (first_at (routine_fault scope) program.now.routines)) (map (read_as scope) program.now.routines) result }
{
    let names = names_of(alloc, program)?;
    let scope = CheckScope {
        tags,
        program: number,
        routines: names.as_slice(),
        tasks,
    };
    match read_routines(alloc, &scope, program.routines.as_slice()) {
        Ok(routines) => Ok(routines),
        Err(error) => Err(error.in_field(alloc, "routines")),
    }
}

/// A program with the rungs of its routines: P10 of the first routine that is refused.
fn read_program(
    alloc: Global,
    tags: &TagTable,
    tasks: &[TaskName],
    number: u32,
    program: &DescribedProgram,
) -> Result<ProgramText, ProjectError>
    requires sealed { tags.now.sealed ≡ true }
    requires few_tasks { length tasks.now < 2 ^ 32 }
    requires small { IsSmallProgram program.now }
    ensures { let scope = scope_in tags.now.declarations tasks.now number program.now in Reads (in_field (codes "routines") (first_at (routine_fault scope) program.now.routines)) (program_as scope program.now) result }
{
    let routines = own_routines(alloc, tags, tasks, number, program)?;
    Ok(ProgramText {
        name: program.name.copied(),
        routines,
        main: main_number(program),
    })
}

/// Programs with their rungs, in order: P10 of the first that is refused, at its place.
pub(crate) fn read_programs(
    alloc: Global,
    tags: &TagTable,
    tasks: &[TaskName],
    programs: &[DescribedProgram],
) -> Result<ProgramTexts, ProjectError>
    requires sealed { tags.now.sealed ≡ true }
    requires few_tasks { length tasks.now < 2 ^ 32 }
    requires small { IsListOf 1 MAX_PROGRAMS IsSmallProgram programs.now }
    ensures { Reads (first_of (program_fault_in tags.now.declarations tasks.now) programs.now) (programs_from tags.now.declarations tasks.now 0 programs.now) result }
{
    let mut made = Vec::new(alloc);
    for (i, program) in programs.iter().enumerate() {
        match read_program(alloc, tags, tasks, i as u32, program) {
            Ok(text) => made.push(text)?,
            Err(error) => return Err(error.at_place(alloc, i)),
        }
    }
    Ok(Items::of(made))
}
