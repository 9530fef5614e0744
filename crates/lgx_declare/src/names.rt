// Names that are repeated, and main routines that aren't there.
ghost use Rattle.std.specs.Prelude.{◌≡◌, ◌<◌, [], codes, length, map, IfOk, ⊤};
ghost use Rattle.std.specs.List.{AllByRecursion as Each, list_any};
ghost use Rattle.lgx_num.specs.Name.{same};
ghost use Rattle.spec_project.specs.Faults.{at_place, first_at, here, in_field, refused_if};
ghost use Rattle.spec_project.specs.declared.fault.ProjectCode.TheVariants.{P6};
ghost use Rattle.spec_project.specs.Names.{connection_names, main_fault, names_fault, repeated_name, repeated_routine, routine_names};
ghost use Rattle.lgx_declare.specs.Few.{HasFewNames};
ghost use Rattle.lgx_json.specs.Answers.{Passes};

use crate::each::{Judge, judge_in};
use lgx_json::ProjectError;
use lgx_num::{Memory, Name};
use lgx_types::NameIndex;
use spec_project::{
    Described, DescribedConnection, DescribedProgram, DescribedRoutine, DescribedTask, ProjectCode,
};
use std::alloc::Global;

/// What has a name in a list of its like.
pub(crate) trait Named {
    ghost use Rattle.std.specs.Prelude.{ℕ, List};

    ghost name_of: { Self → List ℕ };

    fn name(&self) -> &Name
        ensures { result.now ≡ name_of self.now };
}

impl Named for DescribedProgram {
    ghost name_of = { λ p. p.name };

    fn name(&self) -> &Name {
        &self.name
    }
}

impl Named for DescribedRoutine {
    ghost name_of = { λ r. r.name };

    fn name(&self) -> &Name {
        &self.name
    }
}

impl Named for DescribedTask {
    ghost name_of = { λ t. t.name };

    fn name(&self) -> &Name {
        &self.name
    }
}

impl Named for DescribedConnection {
    ghost name_of = { λ c. c.name };

    fn name(&self) -> &Name {
        &self.name
    }
}

/// Whether a name is the same as one of the index.
fn is_taken(index: &NameIndex, name: &Name) -> bool
    ensures { result ≡ list_any (λ earlier. same earlier name.now) index.now }
{
    index.find(name.bytes()).is_some()
}

/// That a name is the same as none of the index, P6 if it is, at this place of its list.
fn refuse_taken(
    alloc: Global,
    index: &NameIndex,
    place: usize,
    name: &Name,
) -> Result<(), ProjectError>
    ensures { Passes (at_place place (in_field (codes "name") (refused_if (list_any (λ earlier. same earlier name.now) index.now) (here P6)))) result }
{
    if is_taken(index, name) {
        let error = ProjectError::here(alloc, ProjectCode::P6);
        return Err(error.in_field(alloc, "name").at_place(alloc, place));
    }
    Ok(())
}

/// Adds the names of a list to an index without any, or P6 at the first that is the same as an earlier one.
fn add_names<T: Named>(
    alloc: Global,
    index: &mut NameIndex,
    things: &[T],
) -> Result<(), ProjectError>
    requires none { index.old ≡ [] }
    requires few { length things.now < 4294967296 }
    ensures { Passes (repeated_name (map T.name_of things.now)) result }
{
    for (i, thing) in things.iter().enumerate() {
        let name = thing.name();
        refuse_taken(alloc, index, i, name)?;
        index.push(name)?;
    }
    Ok(())
}

/// That no name of a list is the same as an earlier one, P6 else.
fn refuse_same<T: Named>(alloc: Global, things: &[T]) -> Result<(), ProjectError>
    requires { length things.now < 4294967296 }
    ensures { Passes (repeated_name (map T.name_of things.now)) result }
{
    let mut index = NameIndex::new(alloc);
    add_names(alloc, &mut index, things)
}

/// An index of the names of a list, in order, the same ones too.
pub fn all_names<T: Named>(alloc: Global, things: &[T]) -> Result<NameIndex, Memory>
    requires { length things.now < 4294967296 }
    ensures { IfOk result (λ index. index ≡ map T.name_of things.now) }
{
    let mut index = NameIndex::new(alloc);
    for (i, thing) in things.iter().enumerate() {
        index.push(thing.name())?;
    }
    Ok(index)
}

/// Judges the names of a program's routines.
struct RoutineNames;

impl Judge<DescribedProgram> for RoutineNames {
    ghost use Rattle.std.specs.Prelude.{◌<◌, length};
    ghost use Rattle.spec_project.specs.Faults.{at_place};
    ghost use Rattle.spec_project.specs.Names.{repeated_routine};

    ghost allows = { λ _ q. length q.routines < 4294967296 };

    ghost fault = { λ _ i q. at_place i (repeated_routine q) };

    fn judge(
        &self,
        alloc: Global,
        place: usize,
        program: &DescribedProgram,
    ) -> Result<(), ProjectError> {
        match refuse_same(alloc, program.routines.as_slice()) {
            Ok(()) => Ok(()),
            Err(error) => Err(error.in_field(alloc, "routines").at_place(alloc, place)),
        }
    }
}

/// Whether one of the routines has the name.
fn is_routine(routines: &[DescribedRoutine], name: &Name) -> bool
    ensures { result ≡ list_any (λ r. same r.name name.now) routines.now }
{
    routines.iter().any(|routine| routine.name.same(name))
}

/// Whether the main routine of a program is one of its routines.
fn has_main(program: &DescribedProgram) -> bool
    ensures { result ≡ list_any (λ name. same name program.now.main) (routine_names program.now) }
{
    is_routine(program.routines.as_slice(), &program.main)
}

/// Judges the main routine of a program.
struct MainRoutine;

impl Judge<DescribedProgram> for MainRoutine {
    ghost use Rattle.std.specs.Prelude.{⊤};
    ghost use Rattle.spec_project.specs.Faults.{at_place};
    ghost use Rattle.spec_project.specs.Names.{main_fault};

    ghost allows = { λ _ q. ⊤ };

    ghost fault = { λ _ i q. at_place i (main_fault q) };

    fn judge(
        &self,
        alloc: Global,
        place: usize,
        program: &DescribedProgram,
    ) -> Result<(), ProjectError> {
        if !has_main(program) {
            let error = ProjectError::here(alloc, ProjectCode::P5);
            return Err(error.in_field(alloc, "main").at_place(alloc, place));
        }
        Ok(())
    }
}

/// That no name is repeated in the list in a field of the file, P6 else.
fn refuse_repeats<T: Named>(alloc: Global, key: &str, things: &[T]) -> Result<(), ProjectError>
    requires { length things.now < 4294967296 }
    ensures { Passes (in_field key.now (repeated_name (map T.name_of things.now))) result }
{
    match refuse_same(alloc, things) {
        Ok(()) => Ok(()),
        Err(error) => Err(error.in_field(alloc, key)),
    }
}

/// That no connection's name is repeated.
fn refuse_connections(alloc: Global, file: &Described) -> Result<(), ProjectError>
    requires { length file.now.connections < 4294967296 }
    ensures { Passes (in_field (codes "connections") (repeated_name (connection_names file.now))) result }
{
    refuse_repeats(alloc, "connections", file.connections.as_slice())
}

/// That no name is repeated among the routines of a program.
fn refuse_routines(alloc: Global, file: &Described) -> Result<(), ProjectError>
    requires { Each (λ q. length q.routines < 4294967296) file.now.programs }
    ensures { Passes (in_field (codes "programs") (first_at repeated_routine file.now.programs)) result }
{
    judge_in(alloc, "programs", &RoutineNames, file.programs.as_slice())
}

/// That each program's main routine is there.
fn refuse_mains(alloc: Global, file: &Described) -> Result<(), ProjectError>
    requires { Each (λ q. ⊤) file.now.programs }
    ensures { Passes (in_field (codes "programs") (first_at main_fault file.now.programs)) result }
{
    judge_in(alloc, "programs", &MainRoutine, file.programs.as_slice())
}

/// That no name is repeated, and each program's main routine is there: P6 and P5 else.
#[tactic(auto, unfolding(spec_project::specs::Names::names_fault))]
pub(crate) fn refuse_names(alloc: Global, file: &Described) -> Result<(), ProjectError>
    requires { HasFewNames file.now }
    ensures { Passes (names_fault file.now) result }
{
    refuse_repeats(alloc, "programs", file.programs.as_slice())?;
    refuse_routines(alloc, file)?;
    refuse_repeats(alloc, "tasks", file.tasks.as_slice())?;
    refuse_connections(alloc, file)?;
    refuse_mains(alloc, file)?;
    Ok(())
}
