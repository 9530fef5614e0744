// A trace judged in one pass.
ghost use Rattle.std.specs.Prelude.{◌≡◌, ◌<◌, ℕ, length, slice_index_or, OnOk, IfErr};
ghost use Rattle.lgx_audit.specs.TraceTable.{AreInTable};
ghost use Rattle.lgx_laws.specs.Laws.{KeepsAll, IsBreach, IfBreach};
ghost use Rattle.lgx_laws.specs.Kept.{IsProper};

use crate::broken::broken_law;
use crate::edits::{book_event, nothing_booked};
use crate::error::LawError;
use crate::since::{ModeSince, control_after, keep_all, nothing_since};
use lgx_audit::{Trace, TraceEvent, count_event, no_counts};
use lgx_num::Items;
use spec_machine::Mode;
use spec_schedule::Table;
use spec_tables::TaskDef;
use std::alloc::Global;

/// The first event of the trace with which a law is broken.
fn judge_events(
    alloc: Global,
    trace: &[TraceEvent],
    table: &Table,
    tasks: &[TaskDef],
    schedule: &[Items<u32>],
) -> Result<(), LawError>
    requires proper { IsProper (record { table = table.now; tasks = tasks.now; schedule = schedule.now }) }
    requires known { AreInTable table.now trace.now }
    ensures ok { OnOk result (KeepsAll (record { table = table.now; tasks = tasks.now; schedule = schedule.now }) trace.now) }
    ensures breach { IfErr result (λ e. IfBreach e (λ law at. IsBreach (record { table = table.now; tasks = tasks.now; schedule = schedule.now }) trace.now law at)) }
{
    let rows = table.tasks.as_slice();
    let mut count_list = no_counts(alloc, rows.len())?;
    let mut kept_list = nothing_since(alloc, rows.len())?;
    let mut book_list = nothing_booked(alloc, table.programs as usize)?;
    let counts = count_list.as_mut_slice();
    let kept = kept_list.as_mut_slice();
    let books = book_list.as_mut_slice();
    let mut control = ModeSince {
        mode: Mode::Program,
        run: None,
    };
    for (i, e) in trace.iter().enumerate() {
        if let Some(law) = broken_law(tasks, schedule, counts, kept, books, control, e) {
            return Err(LawError::Breach { law, at: i as u64 });
        }
        keep_all(rows, counts, kept, e);
        control = control_after(e, control);
        book_event(books, e);
        count_event(rows, counts, e);
    }
    Ok(())
}

/// Judges a trace by the laws that the audit leaves out. It goes once over the trace, with memory for the tasks and the programs
/// alone.
pub fn judge(
    alloc: Global,
    trace: &Trace,
    table: &Table,
    tasks: &[TaskDef],
    schedule: &[Items<u32>],
) -> Result<(), LawError>
    requires proper { IsProper (record { table = table.now; tasks = tasks.now; schedule = schedule.now }) }
    requires known { AreInTable table.now trace.now }
    ensures ok { OnOk result (KeepsAll (record { table = table.now; tasks = tasks.now; schedule = schedule.now }) trace.now) }
    ensures breach { IfErr result (λ e. IfBreach e (λ law at. IsBreach (record { table = table.now; tasks = tasks.now; schedule = schedule.now }) trace.now law at)) }
{
    judge_events(alloc, trace.as_slice(), table, tasks, schedule)
}
