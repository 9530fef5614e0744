// What is refused of a file, pass after pass.
ghost use Rattle.std.specs.Prelude.{◌≡◌, [], false, true, OnOk};
ghost use Rattle.spec_project.specs.Limits.{IsWithinLimits};
ghost use Rattle.spec_project.specs.Schedules.{tasks_fault};
ghost use Rattle.spec_project.specs.Faults.{or_else};
ghost use Rattle.spec_project.specs.Tags.{aliases_fault, declarations, declarations_of, tags_fault};
ghost use Rattle.lgx_declare.specs.Passes.{tasks_refusal};
ghost use Rattle.lgx_json.specs.Answers.{Passes, Reads};

use crate::declare::{declare_all, seal_tags};
use crate::names::{all_names, refuse_names};
use crate::tasks::refuse_tasks;
use crate::types::type_table;
use lgx_json::ProjectError;
use lgx_tags::TagTable;
use spec_project::Described;
use std::alloc::Global;

/// That no task is refused, and every program is in one task's list, once.
#[tactic(auto, using(crate::proofs::Within::few_names))]
fn judge_tasks(alloc: Global, file: &Described) -> Result<(), ProjectError>
    requires { IsWithinLimits file.now }
    ensures { Passes (tasks_fault file.now) result }
{
    let programs = all_names(alloc, file.programs.as_slice())?;
    refuse_tasks(alloc, &programs, file)
}

/// Declares a file's tags in a table without any, and seals it, if no tag, alias or task is refused.
fn judge_table(alloc: Global, table: &mut TagTable, file: &Described) -> Result<(), ProjectError>
    requires limits { IsWithinLimits file.now }
    requires start { table.old ≡ record { declarations = declarations_of file.now []; sealed = false } }
    ensures fault { Passes (or_else (tags_fault file.now) (or_else (aliases_fault file.now) (tasks_fault file.now))) result }
    ensures ok { OnOk result (table.new ≡ record { declarations = declarations file.now; sealed = true }) }
{
    declare_all(alloc, table, file)?;
    seal_tags(alloc, table, file)?;
    judge_tasks(alloc, file)
}

/// The sealed table of a file's tags, if no name, type, tag, alias or task is refused.
#[tactic(auto, using(crate::proofs::Within::few_names, crate::proofs::Within::each_has_members))]
pub fn judged_tags(alloc: Global, file: &Described) -> Result<TagTable, ProjectError>
    requires { IsWithinLimits file.now }
    ensures { Reads (tasks_refusal file.now) (record { declarations = declarations file.now; sealed = true }) result }
{
    refuse_names(alloc, file)?;
    let types = type_table(alloc, file)?;
    let count = file.programs.len() as u32;
    let mut table = TagTable::new(alloc, types, count)?;
    judge_table(alloc, &mut table, file).and(Ok(table))
}
