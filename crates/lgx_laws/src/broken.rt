// The first law that an event breaks.
ghost use Rattle.std.specs.Prelude.{◌≡◌, ◌<◌, ◌≤◌, ℕ, List, Option, Some, length, slice_index_or};
ghost use Rattle.spec_base.specs.declared.limits.TheConstants.{MAX_TASKS};
ghost use Rattle.spec_schedule.specs.declared.trace.Table.{Table};
ghost use Rattle.spec_schedule.specs.Counting.{Counted, CountedEvent, Numbers};
ghost use Rattle.spec_laws.specs.CountedBack.{ticks_in_run};
ghost use Rattle.lgx_audit.specs.Along.{Shown, IsWithin, IsOfPrograms};
ghost use Rattle.lgx_laws.specs.Laws.{broken_at};
ghost use Rattle.lgx_laws.specs.Modes.{mode_after};
ghost use Rattle.lgx_laws.specs.Kept.{no_since, Kept, Books, HavePeriods, IsToldWithin, IsTriggeredWithin};

use crate::copies::keeps_copies;
use crate::edits::{Booked, keeps_edits, keeps_numbers};
use crate::error::Law;
use crate::modes::keeps_modes;
use crate::regions::keeps_region;
use crate::scans::keeps_scans;
use crate::since::{ModeSince, Since};
use crate::starts::keeps_starts;
use crate::ticks::{keeps_releases, keeps_watchdogs};
use crate::triggers::keeps_triggers;
use lgx_audit::{Count, TraceEvent};
use lgx_num::Items;
use spec_tables::TaskDef;

/// The first law that isn't kept at the event, by what is kept before it.
pub(crate) fn broken_law(
    tasks: &[TaskDef],
    schedule: &[Items<u32>],
    counts: &[Count],
    kept: &[Since],
    books: &[Booked],
    control: ModeSince,
    e: &TraceEvent,
) -> Option<Law>
    requires few { length tasks.now ≤ MAX_TASKS }
    requires lists { length schedule.now ≡ length tasks.now }
    requires many { length counts.now ≡ length tasks.now }
    requires kept { length kept.now ≡ length tasks.now }
    requires periods { HavePeriods tasks.now }
    requires within { IsWithin (length tasks.now) e.now }
    requires told { IsToldWithin (length tasks.now) e.now }
    requires triggered { IsTriggeredWithin (length tasks.now) e.now }
    requires programs { IsOfPrograms (length books.now) e.now }
    requires ticks { (t : ℕ) → t < length kept.now → (slice_index_or kept.now t no_since).ticks < 18446744073709551615 }
    requires run { (n : ℕ) → control.run ≡ Some n → n < 18446744073709551615 }
    ensures { (table : Table) (cs : List Counted) (ns : List Numbers) (past : List CountedEvent) → Shown counts.now cs → Kept kept.now cs past → Books books.now ns past
        → control.mode ≡ mode_after past → control.run ≡ ticks_in_run past
        → result ≡ broken_at (record { table = table; tasks = tasks.now; schedule = schedule.now }) past (record { tasks = cs; programs = ns; event = e.now }) }
{
    if !keeps_region(counts, e) {
        return Some(Law::Regions);
    }
    if !keeps_copies(kept, e) {
        return Some(Law::Copies);
    }
    if !keeps_watchdogs(tasks, counts, kept, e) {
        return Some(Law::Watchdogs);
    }
    if !keeps_releases(tasks, counts, control.run, e) {
        return Some(Law::Releases);
    }
    if !keeps_starts(tasks, counts, control.mode, e) {
        return Some(Law::Starts);
    }
    if !keeps_triggers(tasks, counts, e) {
        return Some(Law::Triggers);
    }
    if !keeps_scans(schedule, counts, kept, e) {
        return Some(Law::Scans);
    }
    if !keeps_modes(counts, control.mode, e) {
        return Some(Law::Modes);
    }
    if !keeps_edits(books, e) {
        return Some(Law::Edits);
    }
    if !keeps_numbers(books, e) {
        return Some(Law::Numbers);
    }
    None
}
