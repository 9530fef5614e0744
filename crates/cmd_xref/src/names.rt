// Names of programs and routines by their numbers.
ghost use Rattle.std.specs.Prelude.{◌≡◌, map};
ghost use Rattle.spec_text.specs.ReportText.{name};
ghost use Rattle.lgx_edit.specs.Texts.{program_of};
ghost use Rattle.cmd_xref.specs.XrefText.{program_name, routine_name};

use lgx_edit::{ProgramText, RoutineText};

/// The name of the program of this number; no byte if there is none.
pub(crate) fn program_name(programs: &[ProgramText], number: u32) -> &[u8]
    ensures { result.now ≡ program_name (map program_of programs.now) number }
{
    match programs.get(number as usize) {
        Some(program) => program.name.bytes(),
        None => b"",
    }
}

/// The name of the routine of this number; no byte if there is none.
fn name_in(routines: &[RoutineText], number: u32) -> &[u8]
    ensures { result.now ≡ name (map (λ r. r.name) routines.now) number }
{
    match routines.get(number as usize) {
        Some(routine) => routine.name.bytes(),
        None => b"",
    }
}

/// The name of a program's routine, both by their numbers; no byte if there is no such program, or no such routine of it.
pub(crate) fn routine_name(programs: &[ProgramText], program: u32, routine: u32) -> &[u8]
    ensures { result.now ≡ routine_name (map program_of programs.now) program routine }
{
    match programs.get(program as usize) {
        Some(program) => name_in(program.routines.as_slice(), routine),
        None => b"",
    }
}
