// The audit of a trace in one pass, by all its laws.
ghost use Rattle.std.specs.Prelude.{◌≡◌, ◌<◌, ◌≤◌, ℕ, length, slice_index_or, OnOk, IfErr};
ghost use Rattle.spec_schedule.specs.declared.trace.TraceEvent.TheVariants.{Idle};
ghost use Rattle.spec_schedule.specs.Legal.{Legal};
ghost use Rattle.lgx_audit.specs.TraceTable.{AreInTable};
ghost use Rattle.lgx_audit.specs.Along.{IsWithin, IsOfPrograms};
ghost use Rattle.lgx_audit.specs.Breaches.{IsBreach};
ghost use Rattle.lgx_audit.specs.Answers.{IfBreach};
ghost use Rattle.lgx_audit.specs.declared.error.AuditError.TheVariants.{Breach};

use crate::counts::{count_event, no_counts, stepping};
use crate::error::AuditError;
use crate::numbers::{edit_all, keeps_version, no_tallies};
use crate::priority::keeps_priority;
use crate::watch::{gives_at, keeps_turns, last_after, no_watches, watch_event, way_after};
use lgx_num::{Items, Memory};
use spec_schedule::{Table, TraceEvent};
use std::alloc::Global;

/// The breach of a law with an event.
fn breach(law: u8, at: usize) -> AuditError
    ensures { result ≡ Breach law at }
{
    AuditError::Breach { law, at: at as u64 }
}

/// The first event of the trace with which a law is broken.
fn audit_events(alloc: Global, trace: &[TraceEvent], table: &Table) -> Result<(), AuditError>
    requires tasks { (k : ℕ) → k < length trace.now → IsWithin (length table.now.tasks) (slice_index_or trace.now k Idle) }
    requires programs { (k : ℕ) → k < length trace.now → IsOfPrograms table.now.programs (slice_index_or trace.now k Idle) }
    ensures ok { OnOk result (Legal table.now trace.now) }
    ensures breach { IfErr result (λ e. IfBreach e (λ law at. IsBreach table.now trace.now law at)) }
{
    let tasks = table.tasks.as_slice();
    let mut count_list = no_counts(alloc, tasks.len())?;
    let mut watch_list = no_watches(alloc, tasks.len())?;
    let mut tally_list = no_tallies(alloc, table.programs as usize)?;
    let counts = count_list.as_mut_slice();
    let watches = watch_list.as_mut_slice();
    let tallies = tally_list.as_mut_slice();
    let mut last = None;
    let mut way = None;
    for (i, e) in trace.iter().enumerate() {
        if !keeps_priority(table, counts, e) {
            return Err(breach(1, i));
        }
        let steps = stepping(e);
        if !keeps_turns(watches, way, steps) {
            return Err(breach(2, i));
        }
        if !keeps_version(tallies, e) {
            return Err(breach(3, i));
        }
        let to_give = gives_at(table, counts, last);
        watch_event(table, counts, watches, e, to_give);
        way = way_after(e, to_give, way);
        last = last_after(table, counts, e, last);
        count_event(tasks, counts, e);
        edit_all(tallies, e);
    }
    Ok(())
}

/// Judges a trace by the priority law, the turn law and the version law. It goes once over the trace, with memory for the table
/// alone.
#[tactic(auto, using(crate::proofs::TableBounds::tasks_within, crate::proofs::TableBounds::programs_within))]
pub fn audit(alloc: Global, trace: &Items<TraceEvent>, table: &Table) -> Result<(), AuditError>
    requires { AreInTable table.now trace.now }
    ensures ok { OnOk result (Legal table.now trace.now) }
    ensures breach { IfErr result (λ e. IfBreach e (λ law at. IsBreach table.now trace.now law at)) }
{
    audit_events(alloc, trace.as_slice(), table)
}
