// The instructions of programs, counted down from a limit.
ghost use Rattle.std.specs.Prelude.{◌≡◌, ◌-◌, codes, map, nat_lt, sum_by};
ghost use Rattle.spec_machine.specs.Edits.{instruction_count};
ghost use Rattle.spec_machine.specs.declared.limits.TheConstants.{MAX_PROJECT_INSTRUCTIONS};
ghost use Rattle.spec_project.specs.declared.fault.ProjectCode.TheVariants.{P11};
ghost use Rattle.spec_project.specs.Faults.{here, in_field, refused_if};
ghost use Rattle.lgx_edit.specs.Texts.{program_of, routine_of};
ghost use Rattle.lgx_project.specs.Counting.{instructions_of};
ghost use Rattle.lgx_json.specs.Answers.{Reads};

use lgx_edit::{ProgramText, ProgramTexts, RoutineText, left_by_rungs};
use lgx_json::ProjectError;
use spec_machine::limits::MAX_PROJECT_INSTRUCTIONS;
use spec_project::ProjectCode;
use std::alloc::Global;

/// What is left of a number after the instructions of these routines are taken from it; 0 if they have more.
fn left_by_routines(left: u32, routines: &[RoutineText]) -> u32
    ensures { result ≡ left - instruction_count (map routine_of routines.now) }
{
    let mut left = left;
    for (i, routine) in routines.iter().enumerate() {
        left = left_by_rungs(left, routine.source.as_slice());
    }
    left
}

/// What is left after the instructions of these programs.
fn left_by_programs(left: u32, programs: &[ProgramText]) -> u32
    ensures { result ≡ left - instructions_of (map program_of programs.now) }
{
    let mut left = left;
    for (i, program) in programs.iter().enumerate() {
        left = left_by_routines(left, program.routines.as_slice());
    }
    left
}

/// Whether the programs have more instructions in all than there may be.
fn has_too_many(programs: &[ProgramText]) -> bool
    ensures { result ≡ nat_lt MAX_PROJECT_INSTRUCTIONS (instructions_of (map program_of programs.now)) }
{
    left_by_programs(MAX_PROJECT_INSTRUCTIONS as u32 + 1, programs) == 0
}

/// The same programs, if they have no more instructions in all than there may be: P11 else.
pub(crate) fn refuse_count(
    alloc: Global,
    programs: ProgramTexts,
) -> Result<ProgramTexts, ProjectError>
    ensures { Reads (in_field (codes "programs") (refused_if (nat_lt MAX_PROJECT_INSTRUCTIONS (instructions_of (map program_of programs))) (here P11))) programs result }
{
    if has_too_many(programs.as_slice()) {
        let error = ProjectError::here(alloc, ProjectCode::P11);
        return Err(error.in_field(alloc, "programs"));
    }
    Ok(programs)
}
