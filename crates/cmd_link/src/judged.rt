// What each of the three files is judged to be.
ghost use Rattle.std.specs.Prelude.{◌≡◌, List, ℕ, Ok};
ghost use Rattle.spec_machine.specs.Project.{Project};
ghost use Rattle.spec_link.specs.LinkText.{link_of};
ghost use Rattle.spec_project.specs.Projects.{project_of};
ghost use Rattle.cmd_link.specs.LinkCauses.{IsNoLink, IsNoController};

use crate::causes::{lettered, link_cause_line};
use lgx_judge::{Judged, judge_project};
use lgx_link::{LinkError, read_link};
use lgx_num::{Items, Memory};
use lgx_project::Project;
use spec_link::LinkScript;
use std::alloc::Global;

/// Whether the bytes are the project of a controller. The line that says why they aren't has the controller's letter before it.
pub(crate) fn judge_controller(
    alloc: Global,
    letter: &[u8],
    bytes: &[u8],
) -> Result<Judged<Project>, Memory>
    ensures accepted { (project : Project) → result ≡ Ok (Judged.Accepted project) → project_of bytes.now ≡ Ok project }
    ensures refused { (line : List ℕ) → result ≡ Ok (Judged.Refused line) → IsNoController letter.now bytes.now line }
{
    match judge_project(alloc, bytes)? {
        Judged::Accepted(project) => Ok(Judged::Accepted(project)),
        Judged::Refused(line) => {
            let line = lettered(alloc, letter, line.as_slice())?;
            Ok(Judged::Refused(Items::of(line)))
        }
    }
}

/// Whether the bytes are a link script for two projects.
pub(crate) fn judge_link(
    alloc: Global,
    bytes: &[u8],
    a: &Project,
    b: &Project,
) -> Result<Judged<LinkScript>, Memory>
    ensures accepted { (script : LinkScript) → result ≡ Ok (Judged.Accepted script) → link_of a.now b.now bytes.now ≡ Ok script }
    ensures refused { (line : List ℕ) → result ≡ Ok (Judged.Refused line) → IsNoLink a.now b.now bytes.now line }
{
    match read_link(alloc, bytes, a, b) {
        Ok(script) => Ok(Judged::Accepted(script)),
        Err(LinkError::Line(fault)) => {
            let line = link_cause_line(alloc, fault)?;
            Ok(Judged::Refused(Items::of(line)))
        }
        Err(LinkError::Memory) => Err(Memory),
    }
}
