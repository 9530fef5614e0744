// Names, texts and truth values of a file.
use crate::error::ProjectError;
use crate::list::Reader;
use lgx_num::{Items, Name};
use serde_json::Value;
use spec_project::ProjectCode;
use spec_project::limits::MAX_RUNG_BYTES;
use std::alloc::Global;

/// How a name is read.
#[derive(Clone, Copy)]
pub(crate) struct NameText;

impl Reader for NameText {
    ghost use Rattle.std.specs.Prelude.{⊤};
    ghost use Rattle.spec_project.specs.Judges.{name};
    ghost use Rattle.spec_project.specs.Values.{text_of};

    type Output = Name;

    ghost judge = { λ _ d. name d };

    ghost describes = { λ _ d. text_of d };

    ghost keeps = { λ _ _. ⊤ };

    fn read(&self, alloc: Global, value: &Value) -> Result<Name, ProjectError> {
        let Some(text) = value.as_str() else {
            return Err(ProjectError::here(alloc, ProjectCode::P4));
        };
        match Name::read(text.as_bytes()) {
            Some(name) => Ok(name),
            None => Err(ProjectError::here(alloc, ProjectCode::P5)),
        }
    }
}

/// How any text is read.
#[derive(Clone, Copy)]
pub(crate) struct AnyText;

impl Reader for AnyText {
    ghost use Rattle.std.specs.Prelude.{⊤};
    ghost use Rattle.spec_project.specs.Judges.{any_text};
    ghost use Rattle.spec_project.specs.Values.{text_of};

    type Output = Items<u8>;

    ghost judge = { λ _ d. any_text d };

    ghost describes = { λ _ d. text_of d };

    ghost keeps = { λ _ _. ⊤ };

    fn read(&self, alloc: Global, value: &Value) -> Result<Items<u8>, ProjectError> {
        let Some(text) = value.as_str() else {
            return Err(ProjectError::here(alloc, ProjectCode::P4));
        };
        let bytes = Vec::from_slice(alloc, text.as_bytes())?;
        Ok(Items::of(bytes))
    }
}

/// How the text of a rung is read.
#[derive(Clone, Copy)]
pub(crate) struct RungText;

impl Reader for RungText {
    ghost use Rattle.spec_project.specs.Limits.{IsShortText};
    ghost use Rattle.spec_project.specs.Judges.{rung};
    ghost use Rattle.spec_project.specs.Values.{text_of};

    type Output = Items<u8>;

    ghost judge = { λ _ d. rung d };

    ghost describes = { λ _ d. text_of d };

    ghost keeps = { λ _ x. IsShortText x };

    fn read(&self, alloc: Global, value: &Value) -> Result<Items<u8>, ProjectError> {
        let Some(text) = value.as_str() else {
            return Err(ProjectError::here(alloc, ProjectCode::P4));
        };
        if text.len() > MAX_RUNG_BYTES {
            return Err(ProjectError::here(alloc, ProjectCode::P5));
        }
        let bytes = Vec::from_slice(alloc, text.as_bytes())?;
        Ok(Items::of(bytes))
    }
}

/// How a truth value is read.
#[derive(Clone, Copy)]
pub(crate) struct Truth;

impl Reader for Truth {
    ghost use Rattle.std.specs.Prelude.{⊤};
    ghost use Rattle.spec_project.specs.Judges.{truth};
    ghost use Rattle.spec_project.specs.Values.{truth_of};

    type Output = bool;

    ghost judge = { λ _ d. truth d };

    ghost describes = { λ _ d. truth_of d };

    ghost keeps = { λ _ _. ⊤ };

    fn read(&self, alloc: Global, value: &Value) -> Result<bool, ProjectError> {
        match value.as_bool() {
            Some(truth) => Ok(truth),
            None => Err(ProjectError::here(alloc, ProjectCode::P4)),
        }
    }
}
