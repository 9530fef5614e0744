// The files of `logix_laws P T`: a project and a trace.
ghost use Rattle.std.specs.Prelude.{◌≡◌, IfErr, IfOk, OnOk};
ghost use Rattle.lgx_answer.specs.Plan.{Says};
ghost use Rattle.lgx_answer.specs.Endings.{ending_of};
ghost use Rattle.lgx_answer.specs.Answered.{Answered, call_of};
ghost use Rattle.spec_schedule.specs.TraceView.{table_of};
ghost use Rattle.lgx_audit.specs.TraceTable.{AreInTable};
ghost use Rattle.lgx_laws.specs.Laws.{roster_of, KeepsAll, IsBreach, IfBreach};
ghost use Rattle.cmd_laws.specs.LawsPlan.{judged, on_trace, laws_plan};
ghost use Rattle.cmd_laws.specs.LawsState.{laws_file, laws_next, laws_left};

use crate::lines::no_line;
use cmd_trace::{table_of, trace_cause_line, yes_line};
use lgx_answer::{FileCommand, NoLines, Status, Step, Verdict, answer};
use lgx_audit::{Table, Trace, TraceError, read_trace};
use lgx_edit::PlantParts;
use lgx_io::{Files, Sink};
use lgx_judge::{Judged, judge_project};
use lgx_laws::{LawError, judge};
use lgx_num::{Items, Memory};
use lgx_project::Project;
use std::alloc::Global;

/// The file that is read next is the project's or the trace's.
#[derive(Drop)]
pub(crate) enum Laws<'a> {
    /// Nothing was read yet. These are the names of the files.
    Both { project: &'a str, trace: &'a str },
    /// The project is accepted.
    OnProject { project: Project, trace: &'a str },
}

/// A verdict and its text.
#[derive(Drop)]
struct Saying {
    verdict: Verdict,
    text: Items<u8>,
}

/// Whether a trace keeps all laws of a project.
fn judge_by(
    alloc: Global,
    project: &PlantParts,
    table: &Table,
    trace: &Trace,
) -> Result<(), LawError>
    requires table { table.now ≡ table_of project.now }
    requires known { AreInTable table.now trace.now }
    ensures ok { OnOk result (KeepsAll (roster_of project.now) trace.now) }
    ensures breach { IfErr result (λ e. IfBreach e (λ law at. IsBreach (roster_of project.now) trace.now law at)) }
{
    project.law_of_validity();
    let tasks = project.tasks.as_slice();
    let schedule = project.schedule.as_slice();
    judge(alloc, trace, table, tasks, schedule)
}

/// The answer to a trace.
fn judged(
    alloc: Global,
    project: &PlantParts,
    table: &Table,
    trace: &Trace,
) -> Result<Saying, Memory>
    requires table { table.now ≡ table_of project.now }
    requires known { AreInTable table.now trace.now }
    ensures { IfOk result (λ s. Says (judged (roster_of project.now) trace.now) s.verdict s.text) }
{
    match judge_by(alloc, project, table, trace) {
        Ok(()) => {
            let line = yes_line(alloc, trace.len() as u64)?;
            Ok(Saying {
                verdict: Verdict::Ok,
                text: Items::of(line),
            })
        }
        Err(LawError::Breach { law, at }) => {
            let line = no_line(alloc, law, at)?;
            Ok(Saying {
                verdict: Verdict::Breach,
                text: Items::of(line),
            })
        }
        Err(LawError::Memory) => Err(Memory),
    }
}

/// The answer to the bytes of a trace.
fn on_trace(alloc: Global, project: &PlantParts, bytes: &[u8]) -> Result<Saying, Memory>
    ensures { IfOk result (λ s. Says (on_trace (roster_of project.now) bytes.now) s.verdict s.text) }
{
    let table = table_of(alloc, project)?;
    match read_trace(alloc, bytes, &table) {
        Ok(trace) => judged(alloc, project, &table, &trace),
        Err(TraceError::Line(fault)) => {
            let line = trace_cause_line(alloc, fault)?;
            Ok(Saying {
                verdict: Verdict::Script,
                text: Items::of(line),
            })
        }
        Err(TraceError::Memory) => Err(Memory),
    }
}

impl<'a> FileCommand for Laws<'a> {
    type Text = NoLines;

    ghost file = { laws_file };

    ghost next = { laws_next };

    ghost left = { laws_left };

    fn name(&self) -> &str {
        match self {
            Laws::Both { project, .. } => project,
            Laws::OnProject { trace, .. } => trace,
        }
    }

    fn judge(self, alloc: Global, bytes: Vec<u8>) -> Result<Step<Self, NoLines>, Memory> {
        match self {
            Laws::Both { trace, .. } => match judge_project(alloc, &bytes)? {
                Judged::Accepted(project) => Ok(Step::Read(Laws::OnProject { project, trace })),
                Judged::Refused(line) => Ok(Step::Say(Verdict::Project, line)),
            },
            Laws::OnProject { project, .. } => {
                let said = on_trace(alloc, project.parts(), &bytes)?;
                Ok(Step::Say(said.verdict, said.text))
            }
        }
    }
}

/// Says whether one file's trace, of a run of the project of another, keeps the laws that the audit leaves out: `yes` and the
/// number of its events, or `no` with the law and the event, counted from 0, that breaks it first. The trace is read only if the
/// project isn't refused.
pub fn judge_trace<F: Files, K: Sink>(
    alloc: Global,
    project: &str,
    trace: &str,
    files: &mut F,
    sink: &mut K,
) -> Status
    ensures { Answered (laws_plan project.now trace.now)
        (call_of F.told F.failures files.old files.new K.held K.faults sink.old sink.new (ending_of result)) }
{
    answer(alloc, Laws::Both { project, trace }, files, sink)
}
