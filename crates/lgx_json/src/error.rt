// Why a file isn't read.
ghost use Rattle.std.specs.Prelude.{◌≡◌, IfOk};
ghost use Rattle.spec_base.specs.Causes.{IsFaultOf};
ghost use Rattle.spec_project.specs.Faults.{here as fault_here, here_for as fault_here_for, in_field, at_place, joined};
ghost use Rattle.lgx_json.specs.declared.error.ProjectError.TheVariants.{Project, Memory as NoMemory};
ghost use Rattle.lgx_json.specs.Answers.{fault_of};

use lgx_num::{Items, Memory as NoMemory};
use spec_project::{Inner, ProjectCode, ProjectFault};
use std::alloc::{AllocError, AllocFailed, Global};

/// Why a file gives no project: its first refusal, or out of memory.
#[derive(Drop)]
pub enum ProjectError {
    Project(ProjectFault),
    Memory,
}

impl From<NoMemory> for ProjectError {
    ghost from_gives = { λ _ e. e ≡ NoMemory };

    fn from(_: NoMemory) -> Self {
        ProjectError::Memory
    }
}

impl From<AllocError> for ProjectError {
    ghost from_gives = { λ _ e. e ≡ NoMemory };

    fn from(_: AllocError) -> Self {
        ProjectError::Memory
    }
}

impl<T: Drop> From<AllocFailed<T>> for ProjectError {
    ghost from_gives = { λ _ e. e ≡ NoMemory };

    fn from(_: AllocFailed<T>) -> Self {
        ProjectError::Memory
    }
}

impl ProjectError {
    /// A refusal of what is being read.
    pub fn here(alloc: Global, code: ProjectCode) -> ProjectError
        ensures { result ≡ Project (fault_here code) }
    {
        ProjectError::here_for(alloc, code, Inner::Nothing)
    }

    /// A refusal of what is being read, with what it is of.
    pub fn here_for(alloc: Global, code: ProjectCode, inner: Inner) -> ProjectError
        ensures { result ≡ Project (fault_here_for code inner) }
    {
        ProjectError::Project(ProjectFault {
            code,
            path: Items::of(Vec::new(alloc)),
            inner,
        })
    }

    /// The same refusal of what is in the field of this key.
    pub fn in_field(self, alloc: Global, key: &str) -> ProjectError
        ensures { IsFaultOf (in_field key.now (fault_of self)) (fault_of result) }
    {
        self.under(alloc, key.as_bytes())
    }

    /// The same refusal of what is at this place of a list.
    pub fn at_place(self, alloc: Global, place: usize) -> ProjectError
        ensures { IsFaultOf (at_place place (fault_of self)) (fault_of result) }
    {
        match place.to_string(alloc) {
            Ok(part) => self.under(alloc, part.as_bytes()),
            Err(_) => ProjectError::Memory,
        }
    }

    /// The same refusal with this part before its path.
    fn under(self, alloc: Global, part: &[u8]) -> ProjectError
        ensures { IsFaultOf (in_field part.now (fault_of self)) (fault_of result) }
    {
        match self {
            ProjectError::Memory => ProjectError::Memory,
            ProjectError::Project(fault) => match joined(alloc, part, fault.path.as_slice()) {
                Ok(path) => ProjectError::Project(ProjectFault {
                    code: fault.code,
                    path: Items::of(path),
                    inner: fault.inner,
                }),
                Err(_) => ProjectError::Memory,
            },
        }
    }
}

/// The path that leads to this part and then on.
fn joined(alloc: Global, part: &[u8], path: &[u8]) -> Result<Vec<u8>, NoMemory>
    ensures { IfOk result (λ text. text.items ≡ joined part.now path.now) }
{
    let mut text = Vec::from_slice(alloc, part)?;
    if !path.is_empty() {
        text.push(b'.')?;
        text.extend_from_slice(path)?;
    }
    Ok(text)
}
