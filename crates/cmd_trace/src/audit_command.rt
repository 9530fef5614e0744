// The command `audit P T`.
ghost use Rattle.std.specs.Prelude.{◌≡◌, ℕ, List, Ok, IfOk};
ghost use Rattle.lgx_answer.specs.declared.status.Verdict.{Verdict as Said};
ghost use Rattle.lgx_answer.specs.Plan.{Says};
ghost use Rattle.lgx_answer.specs.Endings.{ending_of};
ghost use Rattle.lgx_answer.specs.Answered.{Answered, call_of};
ghost use Rattle.lgx_audit.specs.TraceTable.{AreInTable};
ghost use Rattle.cmd_trace.specs.AuditPlan.{judged, on_trace, audit_plan};
ghost use Rattle.cmd_trace.specs.AuditState.{audit_file, audit_next, audit_left};

use crate::lines::{no_line, trace_cause_line, yes_line};
use crate::table::table_of;
use lgx_answer::{FileCommand, NoLines, Status, Step, Verdict, answer};
use lgx_audit::{AuditError, Table, Trace, TraceError, audit, read_trace};
use lgx_io::{Files, Sink};
use lgx_judge::{Judged, judge_project};
use lgx_num::{Items, Memory};
use lgx_project::Project;
use std::alloc::Global;

/// `audit P T`: the project's file is to be read, or the trace's.
#[derive(Drop)]
pub(crate) enum Audit<'a> {
    /// Nothing was read yet. These are the names of the files.
    Both { project: &'a str, trace: &'a str },
    /// The project is accepted, and this is its table.
    OnTable { table: Table, trace: &'a str },
}

/// A verdict and its text.
#[derive(Drop)]
struct Saying {
    verdict: Verdict,
    text: Items<u8>,
}

/// What is said of a trace.
fn judged(alloc: Global, table: &Table, trace: &Trace) -> Result<Saying, Memory>
    requires { AreInTable table.now trace.now }
    ensures { IfOk result (λ s. Says (judged table.now trace.now) s.verdict s.text) }
{
    match audit(alloc, trace, table) {
        Ok(()) => {
            let line = yes_line(alloc, trace.len() as u64)?;
            Ok(Saying {
                verdict: Verdict::Ok,
                text: Items::of(line),
            })
        }
        Err(AuditError::Breach { law, at }) => {
            let line = no_line(alloc, law, at)?;
            Ok(Saying {
                verdict: Verdict::Breach,
                text: Items::of(line),
            })
        }
        Err(AuditError::Memory) => Err(Memory),
    }
}

/// What is said of the bytes of a trace.
fn on_trace(alloc: Global, table: &Table, bytes: &[u8]) -> Result<Saying, Memory>
    ensures { IfOk result (λ s. Says (on_trace table.now bytes.now) s.verdict s.text) }
{
    match read_trace(alloc, bytes, table) {
        Ok(trace) => judged(alloc, table, &trace),
        Err(TraceError::Line(fault)) => {
            let line = trace_cause_line(alloc, fault)?;
            Ok(Saying {
                verdict: Verdict::Script,
                text: Items::of(line),
            })
        }
        Err(TraceError::Memory) => Err(Memory),
    }
}

impl<'a> FileCommand for Audit<'a> {
    type Text = NoLines;

    ghost file = { audit_file };

    ghost next = { audit_next };

    ghost left = { audit_left };

    fn name(&self) -> &str {
        match self {
            Audit::Both { project, .. } => project,
            Audit::OnTable { trace, .. } => trace,
        }
    }

    fn judge(self, alloc: Global, bytes: Vec<u8>) -> Result<Step<Self, NoLines>, Memory> {
        match self {
            Audit::Both { trace, .. } => match judge_project(alloc, &bytes)? {
                Judged::Accepted(project) => {
                    let table = table_of(alloc, project.parts())?;
                    Ok(Step::Read(Audit::OnTable { table, trace }))
                }
                Judged::Refused(line) => Ok(Step::Say(Verdict::Project, line)),
            },
            Audit::OnTable { table, .. } => {
                let said = on_trace(alloc, &table, &bytes)?;
                Ok(Step::Say(said.verdict, said.text))
            }
        }
    }
}

/// `audit P T`: says whether one file's trace, of a run of the project of another, keeps the priority law, the turn law and the
/// version law: `yes` and the number of its events, or `no` with the law and the event, counted from 0, that breaks it first.
pub fn audit_trace<F: Files, K: Sink>(
    alloc: Global,
    project: &str,
    trace: &str,
    files: &mut F,
    sink: &mut K,
) -> Status
    ensures { Answered (audit_plan project.now trace.now)
        (call_of F.told F.failures files.old files.new K.held K.faults sink.old sink.new (ending_of result)) }
{
    answer(alloc, Audit::Both { project, trace }, files, sink)
}
