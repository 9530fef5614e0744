// The lines of `text`, one after another.
ghost use Rattle.std.specs.Prelude.{◌≡◌, ◌<◌, [], ◌++◌, length, map, Ok, true, false, OnOk};
ghost use Rattle.lgx_edit.specs.Texts.{program_of, routine_of};
ghost use Rattle.cmd_project.specs.TextPlan.{rung_line, routine_head, text_lines};
ghost use Rattle.cmd_project.specs.TextLeft.{routine_left, program_left, programs_left};

use lgx_answer::Lines;
use lgx_edit::{PlantParts, ProgramText, RoutineText};
use lgx_neutral::write_rung as canonical_text;
use lgx_num::Memory;
use lgx_project::Project;
use lgx_rung::SourceRung;
use lgx_watch::push_word;
use std::alloc::Global;

/// Where the lines of a program go on: the routine, and the line of it, each counted from 0. A routine's line 0 has its names.
#[derive(Clone, Copy)]
struct RungLine {
    routine: usize,
    line: usize,
}

/// The lines of a project: for each routine a line with its names, and then its rungs in their canonical spelling.
///
/// Each line is made when it is asked for, so the text as a whole takes no memory.
#[derive(Drop)]
pub struct TextLines {
    alloc: Global,
    project: Project,
    /// The program of the next line, counted from 0, and where that goes on.
    program: usize,
    place: RungLine,
}

/// A rung in its canonical spelling.
fn rung_line(alloc: Global, rung: &SourceRung, line: &mut Vec<u8>) -> Result<(), Memory>
    ensures { OnOk result (line.new.items ≡ rung_line rung.now) }
{
    *line = canonical_text(alloc, rung)?;
    line.push(b'\n')?;
    Ok(())
}

/// The line before a routine's rungs.
fn head_line(program: &[u8], routine: &[u8], line: &mut Vec<u8>) -> Result<(), Memory>
    ensures { OnOk result (line.new.items ≡ routine_head program.now routine.now) }
{
    line.clear();
    line.extend_from_slice(b"program")?;
    push_word(line, program)?;
    push_word(line, b"routine")?;
    push_word(line, routine)?;
    line.push(b'\n')?;
    Ok(())
}

/// Makes the next line of a routine; `false` if there is none.
fn routine_line(
    alloc: Global,
    program: &[u8],
    routine: &RoutineText,
    next: &mut usize,
    line: &mut Vec<u8>,
) -> Result<bool, Memory>
    ensures more { result ≡ Ok true → routine_left program.now next.old (routine_of routine.now)
        ≡ line.new.items ++ routine_left program.now next.new (routine_of routine.now) }
    ensures some { result ≡ Ok true → 0 < length line.new.items }
    ensures none { result ≡ Ok false → routine_left program.now next.old (routine_of routine.now) ≡ [] }
{
    if *next == 0 {
        head_line(program, routine.name.bytes(), line)?;
        *next = 1;
        return Ok(true);
    }
    let rungs = routine.source.as_slice();
    if *next > rungs.len() {
        return Ok(false);
    }
    rung_line(alloc, &rungs[*next - 1], line)?;
    *next += 1;
    Ok(true)
}

/// Makes the next line of a program; `false` if there is none.
fn program_line(
    alloc: Global,
    program: &ProgramText,
    place: &mut RungLine,
    line: &mut Vec<u8>,
) -> Result<bool, Memory>
    ensures more { result ≡ Ok true → program_left place.old (program_of program.now)
        ≡ line.new.items ++ program_left place.new (program_of program.now) }
    ensures some { result ≡ Ok true → 0 < length line.new.items }
    ensures none { result ≡ Ok false → program_left place.old (program_of program.now) ≡ [] }
{
    let routines = program.routines.as_slice();
    while place.routine < routines.len() {
        let routine = &routines[place.routine];
        let made = routine_line(alloc, program.name.bytes(), routine, &mut place.line, line)?;
        if made {
            return Ok(true);
        }
        place.routine += 1;
        place.line = 0;
    }
    Ok(false)
}

/// Makes the next line of a list of programs; `false` if there is none.
fn programs_line(
    alloc: Global,
    programs: &[ProgramText],
    at: &mut usize,
    place: &mut RungLine,
    line: &mut Vec<u8>,
) -> Result<bool, Memory>
    ensures more { result ≡ Ok true → programs_left (map program_of programs.now) at.old place.old
        ≡ line.new.items ++ programs_left (map program_of programs.now) at.new place.new }
    ensures some { result ≡ Ok true → 0 < length line.new.items }
    ensures none { result ≡ Ok false → programs_left (map program_of programs.now) at.old place.old ≡ [] }
{
    while *at < programs.len() {
        let made = program_line(alloc, &programs[*at], place, line)?;
        if made {
            return Ok(true);
        }
        *at += 1;
        *place = RungLine {
            routine: 0,
            line: 0,
        };
    }
    Ok(false)
}

/// Makes the next line of a project; `false` if there is none.
fn project_line(
    alloc: Global,
    project: &PlantParts,
    program: &mut usize,
    place: &mut RungLine,
    line: &mut Vec<u8>,
) -> Result<bool, Memory>
    ensures more { result ≡ Ok true → programs_left project.now.programs program.old place.old
        ≡ line.new.items ++ programs_left project.now.programs program.new place.new }
    ensures some { result ≡ Ok true → 0 < length line.new.items }
    ensures none { result ≡ Ok false → programs_left project.now.programs program.old place.old ≡ [] }
{
    programs_line(alloc, project.texts.as_slice(), program, place, line)
}

impl TextLines {
    /// All lines of a project.
    #[tactic(auto, using(crate::proofs::TextLefts::all_left))]
    pub(crate) fn of(alloc: Global, project: Project) -> TextLines
        ensures { programs_left result.project.programs result.program result.place ≡ text_lines project }
    {
        TextLines {
            alloc,
            project,
            program: 0,
            place: RungLine {
                routine: 0,
                line: 0,
            },
        }
    }
}

impl Lines for TextLines {
    ghost rest = { λ l. programs_left l.project.programs l.program l.place };

    ghost left = { λ l. length (programs_left l.project.programs l.program l.place) };

    fn line(&mut self, line: &mut Vec<u8>) -> Result<bool, Memory> {
        project_line(
            self.alloc,
            self.project.parts(),
            &mut self.program,
            &mut self.place,
            line,
        )
    }
}
