// The project that a file gives, pass after pass.
ghost use Rattle.std.specs.Prelude.{◌≡◌, None, true, map, IfOk};
ghost use Rattle.spec_project.specs.Limits.{IsWithinLimits};
ghost use Rattle.spec_project.specs.Places.{connection_of, places_fault};
ghost use Rattle.spec_project.specs.Projects.{project_made, project_of, refusal};
ghost use Rattle.spec_project.specs.Routines.{names_of_tasks, routines_fault};
ghost use Rattle.spec_project.specs.Tags.{declarations};
ghost use Rattle.lgx_project.specs.Parts.{ArePartsOf, IsLookedUp};
ghost use Rattle.lgx_project.specs.Passes.{places_refusal};
ghost use Rattle.lgx_project.specs.Programs.{programs_from};
ghost use Rattle.lgx_project.specs.TaskParts.{AreTasksOf};
ghost use Rattle.lgx_json.specs.Answers.{AnswersJson, Passes, Reads};

use crate::count::refuse_count;
use crate::programs::read_programs;
use crate::tasks::{TaskParts, read_tasks};
use lgx_declare::judged_tags;
use lgx_edit::{ConnDefs, Plant, PlantParts, ProgramTexts};
use lgx_json::{ProjectError, read_described};
use lgx_places::{Places, read_connections, read_places};
use lgx_tags::TagTable;
use spec_language::TaskName;
use spec_project::Described;
use std::alloc::Global;

/// A project that a controller can run.
pub type Project = Plant;

/// The sealed tags of a file, and what its connections, initial values and watched texts name by them.
#[derive(Drop)]
struct LookedUp {
    tags: TagTable,
    conns: ConnDefs,
    places: Places,
}

/// What is read of a file before its project is made.
#[derive(Drop)]
struct FileParts {
    found: LookedUp,
    tasks: TaskParts,
    texts: ProgramTexts,
}

/// The same tags and connections, and what initial values and watched texts name by the tags.
fn with_places(
    alloc: Global,
    tags: TagTable,
    conns: ConnDefs,
    file: &Described,
) -> Result<LookedUp, ProjectError>
    requires limits { IsWithinLimits file.now }
    requires tags { tags ≡ record { declarations = declarations file.now; sealed = true } }
    requires conns { conns ≡ map (connection_of file.now) file.now.connections }
    ensures fault { Passes (places_fault file.now) result }
    ensures found { IfOk result (λ found. IsLookedUp file.now found) }
{
    let places = read_places(alloc, &tags, file)?;
    Ok(LookedUp {
        tags,
        conns,
        places,
    })
}

/// What a file's texts name, if no name, type, tag, alias, task, connection or place is refused.
fn look_up(alloc: Global, file: &Described) -> Result<LookedUp, ProjectError>
    requires { IsWithinLimits file.now }
    ensures fault { Passes (places_refusal file.now) result }
    ensures found { IfOk result (λ found. IsLookedUp file.now found) }
{
    let tags = judged_tags(alloc, file)?;
    let conns = read_connections(alloc, &tags, file)?;
    with_places(alloc, tags, conns, file)
}

/// The programs of a file with their rungs: P10 of the first routine that is refused, and then P11 if there are too many
/// instructions.
fn read_texts(
    alloc: Global,
    tags: &TagTable,
    tasks: &[TaskName],
    file: &Described,
) -> Result<ProgramTexts, ProjectError>
    requires limits { IsWithinLimits file.now }
    requires tags { tags.now ≡ record { declarations = declarations file.now; sealed = true } }
    requires tasks { tasks.now ≡ names_of_tasks file.now }
    ensures { Reads (routines_fault file.now) (programs_from (declarations file.now) (names_of_tasks file.now) 0 file.now.programs) result }
{
    match read_programs(alloc, tags, tasks, file.programs.as_slice()) {
        Err(error) => Err(error.in_field(alloc, "programs")),
        Ok(texts) => refuse_count(alloc, texts),
    }
}

/// These, and the programs of the file with their rungs, if no routine is refused.
#[tactic(auto, using(crate::proofs::Texts::programs_made))]
fn with_texts(
    alloc: Global,
    tasks: TaskParts,
    found: LookedUp,
    file: &Described,
) -> Result<FileParts, ProjectError>
    requires limits { IsWithinLimits file.now }
    requires tasks { AreTasksOf file.now tasks }
    requires found { IsLookedUp file.now found }
    ensures fault { Passes (routines_fault file.now) result }
    ensures parts { IfOk result (λ parts. ArePartsOf file.now parts) }
{
    let texts = read_texts(alloc, &found.tags, tasks.names.as_slice(), file)?;
    Ok(FileParts {
        found,
        tasks,
        texts,
    })
}

/// What is read of a file, or its first refusal.
#[tactic(auto, using(crate::proofs::Passes::rungs_last))]
fn read_parts(alloc: Global, file: &Described) -> Result<FileParts, ProjectError>
    requires { IsWithinLimits file.now }
    ensures fault { Passes (refusal file.now) result }
    ensures parts { IfOk result (λ parts. ArePartsOf file.now parts) }
{
    let tasks = read_tasks(alloc, file)?;
    let found = look_up(alloc, file)?;
    with_texts(alloc, tasks, found, file)
}

/// The parts of the project of a file that isn't refused.
fn plant_of(file: &Described, parts: FileParts) -> PlantParts
    requires limits { IsWithinLimits file.now }
    requires accepted { refusal file.now ≡ None }
    requires parts { ArePartsOf file.now parts }
    ensures { result ≡ project_made file.now }
{
    let FileParts {
        found,
        tasks,
        texts,
    } = parts;
    let LookedUp {
        tags,
        conns,
        places,
    } = found;
    let Places { image, watches } = places;
    let TaskParts {
        defs,
        names,
        schedule,
    } = tasks;
    PlantParts {
        tags,
        texts,
        tasks: defs,
        names,
        schedule,
        conns,
        image,
        watches,
    }
}

/// The project that a file describes, or the first refusal.
fn read_plant(alloc: Global, file: &Described) -> Result<Plant, ProjectError>
    requires { IsWithinLimits file.now }
    ensures { Reads (refusal file.now) (project_made file.now) result }
{
    let parts = read_parts(alloc, file)?;
    let plant = Plant::of(alloc, plant_of(file, parts))?;
    Ok(plant)
}

/// The project that a file gives, or its first refusal.
///
/// The refusals come in passes over the whole file, and the first of the first pass that has one is reported: P1 of its text; P2 to
/// P5 and P11 of its shape; P6 of names, and P5 of main routines; P9 of types, of tags and of aliases; P5 and P8 of tasks, and then
/// P7 of programs; P9 and P5 of connections; P9 and P5 of initial values and of watched texts; P10 of rungs and of routines, and
/// last P11 of all instructions.
#[tactic(auto, unfolding(spec_project::specs::Projects::project_of))]
pub fn read_project(alloc: Global, bytes: &[u8]) -> Result<Project, ProjectError>
    ensures { AnswersJson (project_of bytes.now) result }
{
    let file = read_described(alloc, bytes)?;
    read_plant(alloc, &file)
}
