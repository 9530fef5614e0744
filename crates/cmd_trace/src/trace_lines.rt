// The trace of a journal, line by line.
ghost use Rattle.std.specs.Prelude.{◌≡◌, ◌≤◌, map, length, Ok, IfOk};
ghost use Rattle.spec_base.specs.declared.limits.TheConstants.{MAX_EVENTS};
ghost use Rattle.spec_project.specs.Projects.{project_of};
ghost use Rattle.cmd_trace.specs.TracePlan.{trace_text};

use crate::next::next_event;
use lgx_answer::Lines;
use lgx_audit::push_line;
use lgx_core::Controller;
use lgx_edit::{PlantParts, ProgramText};
use lgx_journal::Journal;
use lgx_num::{Memory, Name};
use lgx_project::Project;
use std::alloc::Global;
use std::marker::Model;

/// A project with the file that it was read from.
///
/// Contracts see the project.
#[derive(Drop)]
pub struct ReadProject {
    file: Vec<u8>,
    project: Project,
}

impl Model for ReadProject {
    ghost use Rattle.std.specs.Prelude.{◌≡◌, Ok};
    ghost use Rattle.std.specs.Coded.{codes};
    ghost use Rattle.spec_machine.specs.Project.{Project as MachineProject};
    ghost use Rattle.spec_project.specs.Projects.{project_of};
    ghost use Rattle.lgx_edit.specs.ProjectCode.{project_code};

    ghost Value = { MachineProject };

    ghost coded = { project_code (Prim.hlevel codes) (Prim.hlevel codes) (Prim.hlevel codes) };

    ghost view = { λ r. r.project };

    ghost invariant = { λ r. project_of r.file.items ≡ Ok r.project };
}

impl ReadProject {
    /// The project that the file is.
    pub(crate) fn of(file: Vec<u8>, project: Project) -> ReadProject
        requires { project_of file.items ≡ Ok project }
        ensures { result ≡ project }
    {
        ReadProject { file, project }
    }
}

/// The lines of the trace of a journal on a project. Each line is made when it is asked for, by one event of the controller.
///
/// Contracts see the text that is left, and how many lines it has.
#[derive(Drop)]
pub struct TraceLines {
    alloc: Global,
    /// The file of the project. Contracts say by it what is left.
    file: Vec<u8>,
    /// The names of the programs.
    names: Vec<Name>,
    controller: Controller,
    journal: Journal,
    /// The run of the journal that is next, and how many of its events were made.
    run: u32,
    done: u32,
    ended: bool,
}

impl Model for TraceLines {
    ghost use Rattle.cmd_trace.specs.TraceLeft.{TraceView, trace_view, IsUnderWay};

    ghost Value = { TraceView };

    ghost view = { λ l. trace_view l.file.items l.journal.events l.controller.spent l.ended };

    ghost invariant = { λ l. IsUnderWay l.file.items l.names.items l.controller l.journal.events l.run l.done };
}

/// The names of programs.
fn program_names(alloc: Global, programs: &[ProgramText]) -> Result<Vec<Name>, Memory>
    ensures { IfOk result (λ names. names.items ≡ map (λ q. q.name) programs.now) }
{
    let mut names = Vec::with_capacity(alloc, programs.len())?;
    for program in programs {
        names.push(program.name.copied())?;
    }
    Ok(names)
}

/// The names of a project's programs.
fn names_of(alloc: Global, project: &PlantParts) -> Result<Vec<Name>, Memory>
    ensures { IfOk result (λ names. names.items ≡ map (λ q. q.name) project.now.programs) }
{
    let names = program_names(alloc, project.texts.as_slice())?;
    Ok(names)
}

/// The lines of the trace of a journal.
pub(crate) fn lines_of(
    alloc: Global,
    read: ReadProject,
    journal: Journal,
) -> Result<TraceLines, Memory>
    requires { length journal.events ≤ MAX_EVENTS }
    ensures { IfOk result (λ lines. lines.text ≡ trace_text read journal.events) }
{
    let ReadProject { file, project } = read;
    let names = names_of(alloc, project.parts())?;
    let controller = Controller::new(alloc, project)?;
    Ok(TraceLines {
        alloc,
        file,
        names,
        controller,
        journal,
        run: 0,
        done: 0,
        ended: false,
    })
}

impl Lines for TraceLines {
    ghost rest = { λ l. l.text };

    ghost left = { λ l. l.lines };

    fn line(&mut self, line: &mut Vec<u8>) -> Result<bool, Memory> {
        if self.ended {
            return Ok(false);
        }
        line.clear();
        if self.run == self.journal.runs() {
            line.extend_from_slice(b"end\n")?;
            self.ended = true;
            return Ok(true);
        }
        let event = next_event(
            &mut self.controller,
            &self.names,
            &self.journal,
            &mut self.run,
            &mut self.done,
        )?;
        push_line(line, self.alloc, event)?;
        Ok(true)
    }
}
