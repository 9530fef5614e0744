// Tasks, with their names and their lists of programs.
ghost use Rattle.std.specs.Prelude.{◌≡◌, map, IfOk};
ghost use Rattle.spec_project.specs.Limits.{IsWithinLimits};
ghost use Rattle.spec_project.specs.Routines.{names_of_tasks};
ghost use Rattle.spec_project.specs.Schedules.{schedule};
ghost use Rattle.lgx_declare.specs.Listing.{numbers_of};
ghost use Rattle.lgx_project.specs.TaskParts.{AreTasksOf};

use lgx_declare::{all_names, list_programs};
use lgx_edit::{Schedule, TaskDefs, TaskNames};
use lgx_num::{Items, Memory, Name};
use lgx_types::NameIndex;
use spec_language::TaskName;
use spec_project::{Described, DescribedTask};
use spec_tables::TaskKind;
use std::alloc::Global;

/// The tasks of a file, their names, and for each the numbers of its programs.
#[derive(Drop)]
pub(crate) struct TaskParts {
    pub(crate) defs: TaskDefs,
    pub(crate) names: TaskNames,
    pub(crate) schedule: Schedule,
}

/// The tasks, in order.
fn task_defs(alloc: Global, file: &Described) -> Result<TaskDefs, Memory>
    ensures { IfOk result (λ defs. defs ≡ map (λ t. t.def) file.now.tasks) }
{
    let mut defs = Vec::new(alloc);
    for (i, task) in file.tasks.as_slice().iter().enumerate() {
        defs.push(task.def)?;
    }
    Ok(Items::of(defs))
}

/// The names of the tasks, in order.
fn task_names(alloc: Global, file: &Described) -> Result<TaskNames, Memory>
    ensures { IfOk result (λ names. names ≡ names_of_tasks file.now) }
{
    let mut names = Vec::new(alloc);
    for (i, task) in file.tasks.as_slice().iter().enumerate() {
        let name = task.name.copied();
        let event = matches!(task.def.kind, TaskKind::Event);
        names.push(TaskName { name, event })?;
    }
    Ok(Items::of(names))
}

/// The numbers of the programs of these names, in order; a name that no program has is left out.
fn numbers(alloc: Global, programs: &NameIndex, names: &[Name]) -> Result<Items<u32>, Memory>
    ensures { IfOk result (λ numbers. numbers ≡ numbers_of programs.now names.now) }
{
    let mut list = Vec::new(alloc);
    list_programs(&mut list, programs, names)?;
    Ok(Items::of(list))
}

/// For each of the tasks the numbers of its programs.
fn lists(alloc: Global, programs: &NameIndex, tasks: &[DescribedTask]) -> Result<Schedule, Memory>
    ensures { IfOk result (λ lists. lists ≡ map (λ t. numbers_of programs.now t.programs) tasks.now) }
{
    let mut lists = Vec::new(alloc);
    for (i, task) in tasks.iter().enumerate() {
        lists.push(numbers(alloc, programs, task.programs.as_slice())?)?;
    }
    Ok(Items::of(lists))
}

/// For each task of the file the numbers of its programs, in order.
#[tactic(auto, using(lgx_declare::proofs::Within::few_names))]
fn schedule_of(alloc: Global, file: &Described) -> Result<Schedule, Memory>
    requires { IsWithinLimits file.now }
    ensures { IfOk result (λ lists. lists ≡ schedule file.now) }
{
    let programs = all_names(alloc, file.programs.as_slice())?;
    lists(alloc, &programs, file.tasks.as_slice())
}

/// The tasks of a file with all that belongs to them.
pub(crate) fn read_tasks(alloc: Global, file: &Described) -> Result<TaskParts, Memory>
    requires { IsWithinLimits file.now }
    ensures { IfOk result (λ tasks. AreTasksOf file.now tasks) }
{
    let defs = task_defs(alloc, file)?;
    let names = task_names(alloc, file)?;
    let schedule = schedule_of(alloc, file)?;
    Ok(TaskParts {
        defs,
        names,
        schedule,
    })
}
