// Whole numbers of a file.
ghost use Rattle.std.specs.Prelude.{◌≡◌, ◌≤◌, IfOk};
ghost use Rattle.serde_json.specs.View.{view};
ghost use Rattle.spec_project.specs.Judges.{integer, whole};
ghost use Rattle.spec_project.specs.Values.{number_of};
ghost use Rattle.lgx_json.specs.Answers.{Reads};

use crate::error::ProjectError;
use crate::list::Reader;
use serde_json::Value;
use spec_project::ProjectCode;
use spec_project::limits::MAX_PRIORITY;
use std::alloc::Global;

/// The range of a number that isn't negative, and what it is if it is left out.
#[derive(Clone, Copy)]
pub(crate) struct Whole {
    pub least: u32,
    pub most: u32,
    pub default: u32,
}

/// The whole number that a value is, if it is one of at most 64 bits.
fn integer(value: &Value) -> Option<i128>
    ensures { result ≡ integer (view value.now) }
{
    if let Some(number) = value.as_u64() {
        return Some(i128::from(number));
    }
    match value.as_i64() {
        Some(number) => Some(i128::from(number)),
        None => None,
    }
}

impl Whole {
    /// A number in this range.
    pub(crate) fn number(self, alloc: Global, value: &Value) -> Result<u32, ProjectError>
        ensures number { Reads (whole self.least self.most (view value.now)) (number_of self.default (view value.now)) result }
        ensures range { IfOk result (λ n. (self.least ≤ n) × (n ≤ self.most)) }
    {
        match integer(value) {
            None => Err(ProjectError::here(alloc, ProjectCode::P4)),
            Some(number) => {
                if number < i128::from(self.least) || i128::from(self.most) < number {
                    return Err(ProjectError::here(alloc, ProjectCode::P5));
                }
                Ok(number as u32)
            }
        }
    }
}

impl Reader for Whole {
    ghost use Rattle.std.specs.Prelude.{◌≤◌};
    ghost use Rattle.spec_project.specs.Judges.{whole};
    ghost use Rattle.spec_project.specs.Values.{number_of};

    type Output = u32;

    ghost judge = { λ self' d. whole self'.least self'.most d };

    ghost describes = { λ self' d. number_of self'.default d };

    ghost keeps = { λ self' n. (self'.least ≤ n) × (n ≤ self'.most) };

    fn read(&self, alloc: Global, value: &Value) -> Result<u32, ProjectError> {
        self.number(alloc, value)
    }
}

/// The priority of a task that isn't continuous.
#[derive(Clone, Copy)]
pub(crate) struct Priority;

impl Reader for Priority {
    ghost use Rattle.std.specs.Prelude.{◌≤◌};
    ghost use Rattle.spec_project.specs.Judges.{whole};
    ghost use Rattle.spec_project.specs.Values.{number_of};
    ghost use Rattle.spec_project.specs.declared.limits.TheConstants.{MAX_PRIORITY};

    type Output = u8;

    ghost judge = { λ _ d. whole 1 MAX_PRIORITY d };

    ghost describes = { λ _ d. number_of 0 d };

    ghost keeps = { λ _ n. (1 ≤ n) × (n ≤ MAX_PRIORITY) };

    fn read(&self, alloc: Global, value: &Value) -> Result<u8, ProjectError> {
        let range = Whole {
            least: 1,
            most: MAX_PRIORITY,
            default: 0,
        };
        Ok(range.number(alloc, value)? as u8)
    }
}

/// A number that a DINT can hold.
#[derive(Clone, Copy)]
pub(crate) struct Dint;

impl Reader for Dint {
    ghost use Rattle.std.specs.Prelude.{⊤};
    ghost use Rattle.spec_project.specs.Judges.{dint};
    ghost use Rattle.spec_project.specs.Values.{integer_of};

    type Output = i32;

    ghost judge = { λ _ d. dint d };

    ghost describes = { λ _ d. integer_of d };

    ghost keeps = { λ _ _. ⊤ };

    fn read(&self, alloc: Global, value: &Value) -> Result<i32, ProjectError> {
        match integer(value) {
            None => Err(ProjectError::here(alloc, ProjectCode::P4)),
            Some(number) => {
                if number < i128::from(i32::MIN) || i128::from(i32::MAX) < number {
                    return Err(ProjectError::here(alloc, ProjectCode::P5));
                }
                Ok(number as i32)
            }
        }
    }
}
