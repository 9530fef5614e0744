// What a file is judged to be.
ghost use Rattle.std.specs.Prelude.{◌≡◌, List, ℕ, Ok};
ghost use Rattle.spec_machine.specs.Project.{Project};
ghost use Rattle.spec_text.specs.JournalText.{journal_of};
ghost use Rattle.spec_text.specs.ScriptText.{script_of};
ghost use Rattle.spec_project.specs.Projects.{project_of};
ghost use Rattle.lgx_judge.specs.Judged.{IsNoProject, IsNoJournal, IsNoScript};

use crate::causes::{journal_cause_line, project_cause_line, script_cause_line};
use lgx_journal::{Journal, JournalError, Script, read_journal, read_script};
use lgx_num::{Items, Memory};
use lgx_project::{Project, ProjectError, read_project};
use std::alloc::Global;

/// What the bytes of a file are: what was asked for, or the line that says why they aren't that.
#[derive(Drop)]
pub enum Judged<T: Drop> {
    Accepted(T),
    Refused(Items<u8>),
}

/// Whether the bytes are a project.
pub fn judge_project(alloc: Global, bytes: &[u8]) -> Result<Judged<Project>, Memory>
    ensures accepted { (project : Project) → result ≡ Ok (Judged.Accepted project) → project_of bytes.now ≡ Ok project }
    ensures refused { (line : List ℕ) → result ≡ Ok (Judged.Refused line) → IsNoProject bytes.now line }
{
    match read_project(alloc, bytes) {
        Ok(project) => Ok(Judged::Accepted(project)),
        Err(ProjectError::Project(fault)) => {
            let line = project_cause_line(alloc, &fault)?;
            Ok(Judged::Refused(Items::of(line)))
        }
        Err(ProjectError::Memory) => Err(Memory),
    }
}

/// Whether the bytes are a journal.
pub fn judge_journal(alloc: Global, bytes: &[u8]) -> Result<Judged<Journal>, Memory>
    ensures accepted { (journal : Journal) → result ≡ Ok (Judged.Accepted journal) → journal_of bytes.now ≡ Ok journal.events }
    ensures refused { (line : List ℕ) → result ≡ Ok (Judged.Refused line) → IsNoJournal bytes.now line }
{
    match read_journal(alloc, bytes) {
        Ok(journal) => Ok(Judged::Accepted(journal)),
        Err(JournalError::Line(fault)) => {
            let line = journal_cause_line(alloc, fault)?;
            Ok(Judged::Refused(Items::of(line)))
        }
        Err(JournalError::Memory) => Err(Memory),
    }
}

/// Whether the bytes are a script.
pub fn judge_script(alloc: Global, bytes: &[u8]) -> Result<Judged<Script>, Memory>
    ensures accepted { (script : Script) → result ≡ Ok (Judged.Accepted script) → script_of bytes.now ≡ Ok script }
    ensures refused { (line : List ℕ) → result ≡ Ok (Judged.Refused line) → IsNoScript bytes.now line }
{
    match read_script(alloc, bytes) {
        Ok(script) => Ok(Judged::Accepted(script)),
        Err(JournalError::Line(fault)) => {
            let line = script_cause_line(alloc, fault)?;
            Ok(Judged::Refused(Items::of(line)))
        }
        Err(JournalError::Memory) => Err(Memory),
    }
}
