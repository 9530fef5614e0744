// Which programs run in which task.
ghost use Rattle.std.specs.Prelude.{◌≡◌, ◌++◌, ◌&&◌, ◌==◌, codes, count_by, length, take, IfOk, OnOk, [], ◌∷◌, ⊤};
ghost use Rattle.std.specs.List.{AllByRecursion as Each, list_any, range_with_len};
ghost use Rattle.spec_project.specs.Faults.{first_of, in_field};
ghost use Rattle.spec_project.specs.Limits.{IsSmallTask};
ghost use Rattle.spec_project.specs.Names.{program_names};
ghost use Rattle.spec_project.specs.Schedules.{is_continuous_task, task_fault, tasks_fault, unscheduled};
ghost use Rattle.lgx_declare.specs.Listing.{listed, numbers_of, task_fault_among};
ghost use Rattle.lgx_json.specs.Answers.{Passes};

use crate::each::{Judge, judge_in};
use lgx_json::ProjectError;
use lgx_num::{Memory, Name};
use lgx_types::NameIndex;
use spec_project::{Described, DescribedProgram, DescribedTask, ProjectCode};
use spec_tables::TaskKind;
use std::alloc::Global;

/// Judges the name of a program in a task's list: P5 if no program has it.
#[derive(Drop)]
struct ProgramName<'a> {
    programs: &'a NameIndex,
}

impl<'a> Judge<Name> for ProgramName<'a> {
    ghost use Rattle.std.specs.Prelude.{⊤};
    ghost use Rattle.spec_project.specs.Faults.{at_place};
    ghost use Rattle.lgx_declare.specs.Listing.{name_fault_among};

    ghost allows = { λ _ name. ⊤ };

    ghost fault = { λ self' i name. at_place i (name_fault_among self'.programs.now name) };

    fn judge(&self, alloc: Global, place: usize, name: &Name) -> Result<(), ProjectError> {
        if self.programs.find(name.bytes()).is_none() {
            let error = ProjectError::here(alloc, ProjectCode::P5);
            return Err(error.at_place(alloc, place));
        }
        Ok(())
    }
}

fn is_continuous(task: &DescribedTask) -> bool
    ensures { result ≡ is_continuous_task task.now }
{
    matches!(task.def.kind, TaskKind::Continuous)
}

/// Whether one of these tasks is continuous.
fn any_continuous(tasks: &[DescribedTask]) -> bool
    ensures { result ≡ list_any is_continuous_task tasks.now }
{
    tasks.iter().any(|task| is_continuous(task))
}

/// The first tasks, at most `count`.
#[tactic(auto, using(std::proofs::lemmas::List::take_all))]
fn first_tasks(tasks: &[DescribedTask], count: usize) -> &[DescribedTask]
    ensures { result.now ≡ take count tasks.now }
{
    if count < tasks.len() {
        return &tasks[..count];
    }
    tasks
}

/// Whether a task is continuous, and one of the first `place` tasks is, too.
fn is_second(tasks: &[DescribedTask], place: usize, task: &DescribedTask) -> bool
    ensures { result ≡ (is_continuous_task task.now && list_any is_continuous_task (take place tasks.now)) }
{
    is_continuous(task) && any_continuous(first_tasks(tasks, place))
}

/// Judges a task: P5 of the names of its programs, and then P8 if it is a second continuous one.
#[derive(Drop)]
struct TaskPrograms<'a> {
    programs: &'a NameIndex,
    tasks: &'a [DescribedTask],
}

impl<'a> Judge<DescribedTask> for TaskPrograms<'a> {
    ghost use Rattle.spec_project.specs.Faults.{at_place};
    ghost use Rattle.spec_project.specs.Limits.{IsSmallTask};
    ghost use Rattle.lgx_declare.specs.Listing.{task_fault_among};

    ghost allows = { λ _ t. IsSmallTask t };

    ghost fault = { λ self' i t. at_place i (task_fault_among self'.programs.now self'.tasks.now i t) };

    fn judge(&self, alloc: Global, place: usize, task: &DescribedTask) -> Result<(), ProjectError> {
        match judge_task(alloc, self.programs, self.tasks, place, task) {
            Ok(()) => Ok(()),
            Err(error) => Err(error.at_place(alloc, place)),
        }
    }
}

fn judge_task(
    alloc: Global,
    programs: &NameIndex,
    tasks: &[DescribedTask],
    place: usize,
    task: &DescribedTask,
) -> Result<(), ProjectError>
    requires { IsSmallTask task.now }
    ensures { Passes (task_fault_among programs.now tasks.now place task.now) result }
{
    let names = ProgramName { programs };
    judge_in(alloc, "programs", &names, task.programs.as_slice())?;
    if is_second(tasks, place, task) {
        return Err(ProjectError::here(alloc, ProjectCode::P8));
    }
    Ok(())
}

/// Adds the number of the program of a name after the others, if there is one.
fn list_program(list: &mut Vec<u32>, programs: &NameIndex, name: &Name) -> Result<(), Memory>
    ensures { OnOk result (list.new.items ≡ list.old.items ++ numbers_of programs.now (name.now ∷ [])) }
{
    match programs.find(name.bytes()) {
        Some(number) => {
            list.push(number)?;
            Ok(())
        }
        None => Ok(()),
    }
}

/// Adds the numbers of the programs of these names after the others; a name that no program has is left out.
pub fn list_programs(
    list: &mut Vec<u32>,
    programs: &NameIndex,
    names: &[Name],
) -> Result<(), Memory>
    ensures { OnOk result (list.new.items ≡ list.old.items ++ numbers_of programs.now names.now) }
{
    for (i, name) in names.iter().enumerate() {
        list_program(list, programs, name)?;
    }
    Ok(())
}

/// The numbers of the programs in all tasks' lists, task by task.
fn listed_in(
    alloc: Global,
    programs: &NameIndex,
    tasks: &[DescribedTask],
) -> Result<Vec<u32>, Memory>
    ensures { IfOk result (λ list. list.items ≡ listed programs.now tasks.now) }
{
    let mut list = Vec::new(alloc);
    for (i, task) in tasks.iter().enumerate() {
        list_programs(&mut list, programs, task.programs.as_slice())?;
    }
    Ok(list)
}

/// Whether a number is in the list exactly once.
fn is_once(list: &[u32], number: usize) -> bool
    ensures { result ≡ (count_by (λ m. m == number) list.now == 1) }
{
    list.iter().filter(|m| **m as usize == number).count() == 1
}

/// Judges a program by its number: P7 if it isn't once in the list.
#[derive(Drop)]
struct Listed<'a> {
    list: &'a [u32],
}

impl<'a> Judge<DescribedProgram> for Listed<'a> {
    ghost use Rattle.std.specs.Prelude.{⊤};
    ghost use Rattle.lgx_declare.specs.Listing.{unlisted};

    ghost allows = { λ _ q. ⊤ };

    ghost fault = { λ self' i q. unlisted self'.list.now i i };

    fn judge(&self, alloc: Global, place: usize, _: &DescribedProgram) -> Result<(), ProjectError> {
        if !is_once(self.list, place) {
            let error = ProjectError::here(alloc, ProjectCode::P7);
            return Err(error.at_place(alloc, place));
        }
        Ok(())
    }
}

/// P5 and P8 of the tasks, in order.
fn refuse_lists(alloc: Global, programs: &NameIndex, file: &Described) -> Result<(), ProjectError>
    requires index { programs.now ≡ program_names file.now }
    requires tasks { Each IsSmallTask file.now.tasks }
    ensures { Passes (in_field (codes "tasks") (first_of (task_fault file.now) file.now.tasks)) result }
{
    let tasks = file.tasks.as_slice();
    judge_in(alloc, "tasks", &TaskPrograms { programs, tasks }, tasks)
}

/// P7 of the programs, in order.
fn refuse_unlisted(alloc: Global, list: &[u32], file: &Described) -> Result<(), ProjectError>
    requires listed { list.now ≡ listed (program_names file.now) file.now.tasks }
    requires any { Each (λ q. ⊤) file.now.programs }
    ensures { Passes (in_field (codes "programs") (first_of (unscheduled file.now) (range_with_len 0 (length file.now.programs)))) result }
{
    judge_in(
        alloc,
        "programs",
        &Listed { list },
        file.programs.as_slice(),
    )
}

/// That every program is in one task's list, once, and that at most one task is continuous: P5, P8 and P7 else.
#[tactic(auto, unfolding(spec_project::specs::Schedules::tasks_fault))]
pub(crate) fn refuse_tasks(
    alloc: Global,
    programs: &NameIndex,
    file: &Described,
) -> Result<(), ProjectError>
    requires index { programs.now ≡ program_names file.now }
    requires tasks { Each IsSmallTask file.now.tasks }
    requires any { Each (λ q. ⊤) file.now.programs }
    ensures { Passes (tasks_fault file.now) result }
{
    refuse_lists(alloc, programs, file)?;
    let list = listed_in(alloc, programs, file.tasks.as_slice())?;
    refuse_unlisted(alloc, list.as_slice(), file)
}
