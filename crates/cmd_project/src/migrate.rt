// The command `migrate`: a project's file in the newest schema.
ghost use Rattle.std.specs.Prelude.{◌≡◌};
ghost use Rattle.cmd_project.specs.MigratePlan.{migrate_judged};
ghost use Rattle.lgx_answer.specs.Endings.{ending_of};
ghost use Rattle.lgx_answer.specs.Answered.{Answered, call_of};
ghost use Rattle.cmd_project.specs.MigratePlan.{migrate_plan};

use lgx_answer::{FileCommand, NoLines, Status, Step, Verdict, answer};
use lgx_io::{Files, Sink};
use lgx_judge::project_cause_line;
use lgx_num::{Items, Memory};
use lgx_project::{ProjectError, migrate};
use std::alloc::Global;

/// `migrate P`: says the project's file in the newest schema, on one line.
#[derive(Drop)]
pub(crate) struct Migrate<'a> {
    /// The name of the project's file.
    pub project: &'a str,
}

impl<'a> FileCommand for Migrate<'a> {
    type Text = NoLines;

    ghost file = { λ w. w.project.now };

    ghost next = { λ w bytes. migrate_judged bytes };

    ghost left = { λ w. 0 };

    fn name(&self) -> &str {
        self.project
    }

    #[tactic(auto, using(crate::proofs::Migrations::migrated_said, crate::proofs::Migrations::refusal_said))]
    fn judge(self, alloc: Global, bytes: Vec<u8>) -> Result<Step<Self, NoLines>, Memory> {
        match migrate(alloc, &bytes) {
            Ok(text) => Ok(Step::Say(Verdict::Ok, Items::of(text))),
            Err(ProjectError::Project(fault)) => {
                let line = project_cause_line(alloc, &fault)?;
                Ok(Step::Say(Verdict::Project, Items::of(line)))
            }
            Err(ProjectError::Memory) => Err(Memory),
        }
    }
}

/// `migrate P`: writes a file's project in the newest schema.
pub fn migrate_project<F: Files, K: Sink>(
    alloc: Global,
    project: &str,
    files: &mut F,
    sink: &mut K,
) -> Status
    ensures { Answered (migrate_plan project.now)
        (call_of F.told F.failures files.old files.new K.held K.faults sink.old sink.new (ending_of result)) }
{
    answer(alloc, Migrate { project }, files, sink)
}
