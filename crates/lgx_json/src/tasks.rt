// Tasks of a file.
ghost use Rattle.std.specs.Prelude.{◌≡◌, codes, option_map, IfOk, IsTrue};
ghost use Rattle.spec_machine.specs.ValidProject.{has_period, has_priority, is_within};
ghost use Rattle.spec_machine.specs.declared.limits.TheConstants.{MAX_PERIOD};
ghost use Rattle.spec_project.specs.Limits.{IsSmallTask};
ghost use Rattle.spec_project.specs.declared.limits.TheConstants.{DEFAULT_WATCHDOG};
ghost use Rattle.serde_json.specs.Find.{get};
ghost use Rattle.serde_json.specs.View.{view};
ghost use Rattle.spec_project.specs.Judges.{any_object, field, fields_of, keys_of, only_keys, optional, whole};
ghost use Rattle.spec_project.specs.Shape.{inhibited_field, inhibited_fields, kind_field, period_fields, priority_fields, task_fields, word_at, word_of};
ghost use Rattle.spec_project.specs.Reading.{described_task, inhibited_of, kind_of, priority_of};
ghost use Rattle.spec_project.specs.Values.{number_at, truth_at};
ghost use Rattle.lgx_json.specs.Tasks.{rest_of_task};
ghost use Rattle.lgx_json.specs.Answers.{Passes, Reads, ReadsField};

use crate::error::ProjectError;
use crate::fields::{needed, only_keys, optional};
use crate::list::{ListOf, Reader};
use crate::number::{Priority, Whole};
use crate::text::{NameText, Truth};
use lgx_num::Items;
use serde_json::Value;
use spec_base::limits::LEAST_PRIORITY;
use spec_machine::limits::{MAX_PERIOD, MAX_PROGRAMS};
use spec_project::limits::DEFAULT_WATCHDOG;
use spec_project::{DescribedTask, ProjectCode, TaskWord};
use spec_tables::{TaskDef, TaskKind};
use std::alloc::Global;

const PERIOD: Whole = Whole {
    least: 1,
    most: MAX_PERIOD,
    default: 0,
};

const WATCHDOG: Whole = Whole {
    least: 1,
    most: MAX_PERIOD,
    default: DEFAULT_WATCHDOG,
};

const PROGRAM_NAMES: ListOf<NameText> = ListOf {
    least: 1,
    most: MAX_PROGRAMS,
    of: NameText,
};

/// How the field `kind` of a task is read.
#[derive(Clone, Copy)]
struct KindText;

impl Reader for KindText {
    ghost use Rattle.std.specs.Prelude.{⊤};
    ghost use Rattle.spec_project.specs.Judges.{one_of};
    ghost use Rattle.spec_project.specs.Shape.{word_of, words};

    type Output = TaskWord;

    ghost judge = { λ _ d. one_of words d };

    ghost describes = { λ _ d. word_of d };

    ghost keeps = { λ _ _. ⊤ };

    fn read(&self, alloc: Global, value: &Value) -> Result<TaskWord, ProjectError> {
        let Some(text) = value.as_str() else {
            return Err(ProjectError::here(alloc, ProjectCode::P4));
        };
        if text == "continuous" {
            return Ok(TaskWord::Continuous);
        }
        if text == "periodic" {
            return Ok(TaskWord::Periodic);
        }
        if text == "event" {
            return Ok(TaskWord::Event);
        }
        Err(ProjectError::here(alloc, ProjectCode::P5))
    }
}

/// That a value is an object.
#[tactic(auto, unfolding(spec_project::specs::Judges::any_object))]
fn any_object(alloc: Global, value: &Value) -> Result<(), ProjectError>
    ensures { Passes (any_object (view value.now)) result }
{
    if !value.is_object() {
        return Err(ProjectError::here(alloc, ProjectCode::P4));
    }
    Ok(())
}

fn task_word(alloc: Global, value: &Value) -> Result<TaskWord, ProjectError>
    ensures field { ReadsField (field kind_field (view value.now)) (option_map word_of (get (codes "kind") (view value.now))) result }
{
    needed(alloc, &KindText, "kind", value)
}

/// That a task has no fields but those of its kind.
#[tactic(auto, unfolding(spec_project::specs::Shape::inhibited_field))]
fn task_keys(alloc: Global, newest: bool, word: TaskWord, value: &Value) -> Result<(), ProjectError>
    ensures { Passes (only_keys (keys_of (task_fields newest word)) (view value.now)) result }
{
    match (word, newest) {
        (TaskWord::Continuous, false) => {
            only_keys(alloc, &["name", "kind", "watchdog", "programs"], value)
        }
        (TaskWord::Continuous, true) => only_keys(
            alloc,
            &["name", "kind", "watchdog", "inhibited", "programs"],
            value,
        ),
        (TaskWord::Periodic, false) => only_keys(
            alloc,
            &["name", "kind", "priority", "period", "watchdog", "programs"],
            value,
        ),
        (TaskWord::Periodic, true) => only_keys(
            alloc,
            &[
                "name",
                "kind",
                "priority",
                "period",
                "watchdog",
                "inhibited",
                "programs",
            ],
            value,
        ),
        (TaskWord::Event, false) => only_keys(
            alloc,
            &["name", "kind", "priority", "watchdog", "programs"],
            value,
        ),
        (TaskWord::Event, true) => only_keys(
            alloc,
            &[
                "name",
                "kind",
                "priority",
                "watchdog",
                "inhibited",
                "programs",
            ],
            value,
        ),
    }
}

/// The priority of a task of this kind.
fn task_priority(alloc: Global, word: TaskWord, value: &Value) -> Result<u8, ProjectError>
    ensures reads { Reads (fields_of (priority_fields word) (view value.now)) (priority_of word (view value.now)) result }
    ensures kept { IfOk result (λ n. IsTrue (has_priority (kind_of word (view value.now)) n)) }
{
    match word {
        TaskWord::Continuous => Ok(LEAST_PRIORITY),
        TaskWord::Periodic | TaskWord::Event => { Ok(needed(alloc, &Priority, "priority", value)?) }
    }
}

/// The kind of a task, with its period.
fn task_kind(alloc: Global, word: TaskWord, value: &Value) -> Result<TaskKind, ProjectError>
    ensures reads { Reads (fields_of (period_fields word) (view value.now)) (kind_of word (view value.now)) result }
    ensures kept { IfOk result (λ kind. IsTrue (has_period kind)) }
{
    match word {
        TaskWord::Continuous => Ok(TaskKind::Continuous),
        TaskWord::Periodic => {
            let period = needed(alloc, &PERIOD, "period", value)?;
            Ok(TaskKind::Periodic(period))
        }
        TaskWord::Event => Ok(TaskKind::Event),
    }
}

/// The ticks of a task's watchdog.
fn task_watchdog(alloc: Global, value: &Value) -> Result<u32, ProjectError>
    ensures reads { Reads (field (optional (codes "watchdog") (whole 1 MAX_PERIOD)) (view value.now)) (number_at (codes "watchdog") DEFAULT_WATCHDOG (view value.now)) result }
    ensures kept { IfOk result (λ n. IsTrue (is_within n MAX_PERIOD)) }
{
    match optional(alloc, &WATCHDOG, "watchdog", value)? {
        Some(watchdog) => Ok(watchdog),
        None => Ok(DEFAULT_WATCHDOG),
    }
}

/// Whether a task has the mark that it is inhibited.
#[tactic(auto, unfolding(spec_project::specs::Shape::inhibited_field))]
fn inhibited_mark(alloc: Global, value: &Value) -> Result<bool, ProjectError>
    ensures { Reads (field inhibited_field (view value.now)) (truth_at (codes "inhibited") (view value.now)) result }
{
    match optional(alloc, &Truth, "inhibited", value)? {
        Some(inhibited) => Ok(inhibited),
        None => Ok(false),
    }
}

/// Whether a task is inhibited, which only the newest form of the file can say.
#[tactic(auto, using(spec_base::proofs::Options::or_none))]
fn task_inhibited(alloc: Global, newest: bool, value: &Value) -> Result<bool, ProjectError>
    ensures { Reads (fields_of (inhibited_fields newest) (view value.now)) (inhibited_of newest (view value.now)) result }
{
    if newest {
        inhibited_mark(alloc, value)
    } else {
        Ok(false)
    }
}

/// A task of this kind, whose fields are of no other keys.
#[tactic(auto, unfolding(crate::specs::Tasks::rest_of_task, spec_project::specs::Reading::described_task, spec_project::specs::Reading::task_def))]
fn task_of(
    alloc: Global,
    newest: bool,
    word: TaskWord,
    value: &Value,
) -> Result<DescribedTask, ProjectError>
    requires { word_at (view value.now) ≡ word }
    ensures reads { Reads (rest_of_task newest word (view value.now)) (described_task newest (view value.now)) result }
    ensures kept { IfOk result (λ t. IsSmallTask t) }
{
    let name = needed(alloc, &NameText, "name", value)?;
    let priority = task_priority(alloc, word, value)?;
    let kind = task_kind(alloc, word, value)?;
    let watchdog = task_watchdog(alloc, value)?;
    let inhibited = task_inhibited(alloc, newest, value)?;
    let programs = needed(alloc, &PROGRAM_NAMES, "programs", value)?;
    Ok(DescribedTask {
        name,
        def: TaskDef {
            kind,
            priority,
            watchdog,
            inhibited,
        },
        programs,
    })
}

/// A task of the newest form of the file, or of the first.
#[derive(Clone, Copy)]
pub(crate) struct TaskObject {
    pub newest: bool,
}

impl Reader for TaskObject {
    ghost use Rattle.spec_project.specs.Limits.{IsSmallTask};
    ghost use Rattle.spec_project.specs.Shape.{task};
    ghost use Rattle.spec_project.specs.Reading.{described_task};

    type Output = DescribedTask;

    ghost judge = { λ self' d. task self'.newest d };

    ghost describes = { λ self' d. described_task self'.newest d };

    ghost keeps = { λ _ x. IsSmallTask x };

    #[tactic(auto, using(crate::proofs::TaskParts::task_by_parts, crate::proofs::TaskParts::task_refused), unfolding(spec_project::specs::Shape::task))]
    fn read(&self, alloc: Global, value: &Value) -> Result<DescribedTask, ProjectError> {
        any_object(alloc, value)?;
        let word = task_word(alloc, value)?;
        task_keys(alloc, self.newest, word, value)?;
        task_of(alloc, self.newest, word, value)
    }
}
