// Lists of a file.
ghost use Rattle.std.specs.Prelude.{◌≡◌, length, map, option_map, IfOk};
ghost use Rattle.std.specs.List.{AllByRecursion as Each};
ghost use Rattle.spec_project.specs.Limits.{IsListOf};
ghost use Rattle.serde_json.specs.Find.{as_array};
ghost use Rattle.serde_json.specs.View.{view, items_view};
ghost use Rattle.spec_project.specs.Faults.{first_at};
ghost use Rattle.spec_project.specs.Judges.{list};
ghost use Rattle.spec_project.specs.Values.{elements_of as seen_elements};
ghost use Rattle.lgx_json.specs.Answers.{Reads};

use crate::error::ProjectError;
use lgx_num::Items;
use serde_json::Value;
use spec_project::ProjectCode;
use std::alloc::Global;

/// What reads one kind of value of a file.
pub(crate) trait Reader {
    ghost use Rattle.std.specs.Prelude.{Option};
    ghost use Rattle.serde_json.specs.Data.{Data};
    ghost use Rattle.spec_project.specs.declared.fault.ProjectFault.{ProjectFault};

    type Output: Drop;

    /// The first refusal of a value, and what any other one describes.
    ghost judge: { Self → Data → Option ProjectFault };

    ghost describes: { Self → Data → Self.Output };

    /// The limits that what is described keeps.
    ghost keeps: { Self → Self.Output → Type 0 };

    fn read(&self, alloc: Global, value: &Value) -> Result<Self::Output, ProjectError>
        ensures reads { Reads (judge self.now (view value.now)) (describes self.now (view value.now)) result }
        ensures kept { IfOk result (λ x. keeps self.now x) };
}

/// The elements of a value that is a list.
fn elements_of(value: &Value) -> Option<&[Value]>
    ensures { option_map (λ values. items_view values.now) result ≡ as_array (view value.now) }
{
    let values = value.as_array()?;
    Some(values.as_slice())
}

/// The elements of a list, each read by the reader.
fn read_elements<R: Reader>(
    alloc: Global,
    reader: &R,
    values: &[Value],
) -> Result<Items<R::Output>, ProjectError>
    ensures reads { Reads (first_at (R.judge reader.now) (map view values.now)) (map (R.describes reader.now) (map view values.now)) result }
    ensures each { IfOk result (λ xs. Each (R.keeps reader.now) xs) }
    ensures many { IfOk result (λ xs. length xs ≡ length values.now) }
{
    let mut made = Vec::new(alloc);
    for (i, value) in values.iter().enumerate() {
        match reader.read(alloc, value) {
            Ok(one) => made.push(one)?,
            Err(error) => return Err(error.at_place(alloc, i)),
        }
    }
    Ok(Items::of(made))
}

/// A list of at least `least` elements, and at most `most`, each read by a reader.
#[derive(Clone, Copy)]
pub(crate) struct ListOf<R> {
    pub least: usize,
    pub most: usize,
    pub of: R,
}

impl<R: Reader> Reader for ListOf<R> {
    ghost use Rattle.std.specs.Prelude.{map};
    ghost use Rattle.spec_project.specs.Judges.{list};
    ghost use Rattle.spec_project.specs.Values.{elements_of as seen_elements};
    ghost use Rattle.spec_project.specs.Limits.{IsListOf};

    type Output = Items<R::Output>;

    ghost judge = { λ self' d. list self'.least self'.most (R.judge self'.of) d };

    ghost describes = { λ self' d. map (R.describes self'.of) (seen_elements d) };

    ghost keeps = { λ self' xs. IsListOf self'.least self'.most (R.keeps self'.of) xs };

    fn read(&self, alloc: Global, value: &Value) -> Result<Items<R::Output>, ProjectError> {
        read_list(alloc, &self.of, self.least, self.most, value)
    }
}

/// A list of at least `least` elements, and at most `most`, each read by the reader.
pub(crate) fn read_list<R: Reader>(
    alloc: Global,
    reader: &R,
    least: usize,
    most: usize,
    value: &Value,
) -> Result<Items<R::Output>, ProjectError>
    ensures reads { Reads (list least most (R.judge reader.now) (view value.now)) (map (R.describes reader.now) (seen_elements (view value.now))) result }
    ensures kept { IfOk result (λ xs. IsListOf least most (R.keeps reader.now) xs) }
{
    let Some(values) = elements_of(value) else {
        return Err(ProjectError::here(alloc, ProjectCode::P4));
    };
    if values.len() < least {
        return Err(ProjectError::here(alloc, ProjectCode::P5));
    }
    if values.len() > most {
        return Err(ProjectError::here(alloc, ProjectCode::P11));
    }
    read_elements(alloc, reader, values)
}
