// The names that the report of a project is written with.
ghost use Rattle.std.specs.Prelude.{◌≡◌, ◌≤◌, map, length, IfOk};
ghost use Rattle.lgx_watch.specs.declared.bits.TheConstants.{MAX_WATCHES};
ghost use Rattle.spec_text.specs.ReportText.{names_of};

use lgx_edit::{PlantParts, ProgramText, Watch};
use lgx_num::{Items, Memory, Place};
use lgx_watch::{Names, WatchIndex};
use spec_language::TaskName;
use std::alloc::Global;

/// The names of a project's tasks and programs and the texts of its watched places. Out of memory comes if there is no room for
/// them.
pub fn names_of(alloc: Global, project: &PlantParts) -> Result<Names, Memory>
    ensures { IfOk result (λ names. names ≡ names_of project.now) }
{
    Ok(Names {
        tasks: task_names(alloc, project.names.as_slice())?,
        programs: program_names(alloc, project.texts.as_slice())?,
        watches: watch_texts(alloc, project.watches.as_slice())?,
    })
}

/// The names of tasks.
fn task_names(alloc: Global, tasks: &[TaskName]) -> Result<Items<Items<u8>>, Memory>
    ensures { IfOk result (λ names. names ≡ map (λ t. t.name) tasks.now) }
{
    let mut names = Vec::with_capacity(alloc, tasks.len())?;
    for task in tasks {
        names.push(text_of(alloc, task.name.bytes())?)?;
    }
    Ok(Items::of(names))
}

/// The names of programs.
fn program_names(alloc: Global, programs: &[ProgramText]) -> Result<Items<Items<u8>>, Memory>
    ensures { IfOk result (λ names. names ≡ map (λ q. q.name) programs.now) }
{
    let mut names = Vec::with_capacity(alloc, programs.len())?;
    for program in programs {
        names.push(text_of(alloc, program.name.bytes())?)?;
    }
    Ok(Items::of(names))
}

/// The texts of watched places.
fn watch_texts(alloc: Global, watches: &[Watch]) -> Result<Items<Items<u8>>, Memory>
    ensures { IfOk result (λ texts. texts ≡ map (λ w. w.text) watches.now) }
{
    let mut texts = Vec::with_capacity(alloc, watches.len())?;
    for watch in watches {
        texts.push(text_of(alloc, watch.text.as_slice())?)?;
    }
    Ok(Items::of(texts))
}

/// What is taken from a project before a controller takes it: its names, and its watched places.
pub(crate) fn names_and_watches(
    alloc: Global,
    project: &PlantParts,
) -> Result<(Names, WatchIndex), Memory>
    ensures names { IfOk result (λ both. both.0 ≡ names_of project.now) }
    ensures watches { IfOk result (λ both. both.1 ≡ map (λ w. w.place) project.now.watches) }
{
    let names = names_of(alloc, project)?;
    let places = places_of(alloc, project)?;
    let watches = WatchIndex::new(alloc, &places)?;
    Ok((names, watches))
}

/// The watched places of a project.
fn places_of(alloc: Global, project: &PlantParts) -> Result<Vec<Place>, Memory>
    ensures places { IfOk result (λ places. places.items ≡ map (λ w. w.place) project.now.watches) }
    ensures few { IfOk result (λ places. length places.items ≤ MAX_WATCHES) }
{
    project.law_of_validity();
    let places = watch_places(alloc, project.watches.as_slice())?;
    Ok(places)
}

/// The places of watches.
fn watch_places(alloc: Global, watches: &[Watch]) -> Result<Vec<Place>, Memory>
    ensures { IfOk result (λ places. places.items ≡ map (λ w. w.place) watches.now) }
{
    let mut places = Vec::with_capacity(alloc, watches.len())?;
    for watch in watches {
        places.push(watch.place)?;
    }
    Ok(places)
}

/// The same bytes again.
fn text_of(alloc: Global, bytes: &[u8]) -> Result<Items<u8>, Memory>
    ensures { IfOk result (λ text. text ≡ bytes.now) }
{
    Ok(Items::of(Vec::from_slice(alloc, bytes)?))
}
