// The command `check`: how many there are of each part of a project.
ghost use Rattle.std.specs.Prelude.{◌≡◌, ◌^◌, ◌<◌, [], ◌∷◌, ◌++◌, length, sum_by, IfOk, OnOk};
ghost use Rattle.std.specs.Fmt.{decimal};
ghost use Rattle.lgx_answer.specs.declared.status.Verdict.TheVariants as verdict;
ghost use Rattle.lgx_watch.specs.Spaces.{after_spaces};
ghost use Rattle.cmd_project.specs.CheckPlan.{routine_count, rung_count, check_line, check_judged, check_plan};
ghost use Rattle.lgx_answer.specs.Endings.{ending_of};
ghost use Rattle.lgx_answer.specs.Answered.{Answered, call_of};

use lgx_answer::{FileCommand, NoLines, Status, Step, Verdict, answer};
use lgx_edit::{PlantParts, ProgramText, RoutineText};
use lgx_io::{Files, Sink};
use lgx_judge::{Judged, judge_project};
use lgx_num::{Items, Memory};
use lgx_project::Project;
use lgx_watch::{push_count, push_word};
use std::alloc::Global;
use std::mem;

/// `check P`: says how many tasks, programs, routines and rungs the project has, and how many bytes its tags take.
#[derive(Drop)]
pub(crate) struct Check<'a> {
    /// The name of the project's file.
    pub project: &'a str,
}

/// How many rungs the routines have.
fn rungs_of(routines: &[RoutineText]) -> u64
    requires { sum_by (λ r. length r.source) routines.now < 2 ^ 64 }
    ensures { result ≡ sum_by (λ r. length r.source) routines.now }
{
    let mut count = 0;
    for routine in routines {
        count += routine.source.len() as u64;
    }
    count
}

/// How many routines the programs have.
fn routine_count(programs: &[ProgramText]) -> u64
    requires { sum_by (λ p. length p.routines) programs.now < 2 ^ 64 }
    ensures { result ≡ sum_by (λ p. length p.routines) programs.now }
{
    let mut count = 0;
    for program in programs {
        count += program.routines.len() as u64;
    }
    count
}

/// How many rungs the programs have.
fn rung_count(programs: &[ProgramText]) -> u64
    requires { sum_by (λ p. sum_by (λ r. length r.source) p.routines) programs.now < 2 ^ 64 }
    ensures { result ≡ sum_by (λ p. sum_by (λ r. length r.source) p.routines) programs.now }
{
    let mut count = 0;
    for program in programs {
        count += rungs_of(program.routines.as_slice());
    }
    count
}

/// How many routines a project has.
fn routines_in(project: &PlantParts) -> u64
    ensures { result ≡ routine_count project.now.programs }
{
    routine_count(project.texts.as_slice())
}

/// How many rungs a project has.
fn rungs_in(project: &PlantParts) -> u64
    ensures { result ≡ rung_count project.now.programs }
{
    rung_count(project.texts.as_slice())
}

/// How many tasks a project has.
fn tasks_in(project: &PlantParts) -> u64
    ensures { result ≡ length project.now.tasks }
{
    project.tasks.len() as u64
}

/// How many programs a project has.
fn programs_in(project: &PlantParts) -> u64
    ensures { result ≡ length project.now.programs }
{
    project.texts.len() as u64
}

/// How many bytes all tags of a project take.
fn bytes_in(project: &PlantParts) -> u64
    ensures { result ≡ length project.now.image }
{
    u64::from(project.image.len())
}

/// Adds a word, and a number after it.
fn push_named(text: &mut Vec<u8>, word: &[u8], number: u64) -> Result<(), Memory>
    ensures { OnOk result (text.new.items ≡ text.old.items ++ after_spaces (word.now ∷ decimal number ∷ [])) }
{
    push_word(text, word)?;
    push_count(text, number)
}

/// The counts of a project, as a line.
#[tactic(auto, unfolding(crate::specs::CheckPlan::check_line))]
fn check_line(alloc: Global, project: &PlantParts) -> Result<Vec<u8>, Memory>
    ensures { IfOk result (λ text. text.items ≡ check_line project.now) }
{
    let mut text = Vec::new(alloc);
    text.extend_from_slice(b"ok")?;
    push_named(&mut text, b"tasks", tasks_in(project))?;
    push_named(&mut text, b"programs", programs_in(project))?;
    push_named(&mut text, b"routines", routines_in(project))?;
    push_named(&mut text, b"rungs", rungs_in(project))?;
    push_named(&mut text, b"bytes", bytes_in(project))?;
    text.push(b'\n')?;
    Ok(text)
}

/// What is said of a project.
fn counts_said<'a>(alloc: Global, project: &Project) -> Result<Step<Check<'a>, NoLines>, Memory>
    ensures { IfOk result (λ step. step ≡ Step.Say verdict.Ok (check_line project.now)) }
{
    let line = check_line(alloc, project.parts())?;
    Ok(Step::Say(Verdict::Ok, Items::of(line)))
}

impl<'a> FileCommand for Check<'a> {
    type Text = NoLines;

    ghost file = { λ w. w.project.now };

    ghost next = { λ w bytes. check_judged bytes };

    ghost left = { λ w. 0 };

    fn name(&self) -> &str {
        self.project
    }

    #[tactic(auto, using(lgx_judge::proofs::Follow::project_refused, lgx_judge::proofs::Follow::project_says))]
    fn judge(self, alloc: Global, bytes: Vec<u8>) -> Result<Step<Self, NoLines>, Memory> {
        match judge_project(alloc, &bytes) {
            Ok(Judged::Accepted(project)) => {
                let said = counts_said(alloc, &project);
                // its memory goes with the process
                mem::forget(project);
                said
            }
            Ok(Judged::Refused(line)) => Ok(Step::Say(Verdict::Project, line)),
            Err(Memory) => Err(Memory),
        }
    }
}

/// `check P`: writes the line of the counts of a file's project.
///
/// The memory of the project isn't given back: it goes with the process, and a caller that goes on has lost it.
pub fn check_project<F: Files, K: Sink>(
    alloc: Global,
    project: &str,
    files: &mut F,
    sink: &mut K,
) -> Status
    ensures { Answered (check_plan project.now)
        (call_of F.told F.failures files.old files.new K.held K.faults sink.old sink.new (ending_of result)) }
{
    answer(alloc, Check { project }, files, sink)
}
