// The law of regions at one event.
ghost use Rattle.std.specs.Prelude.{◌≡◌, ◌||◌, ◌&&◌, not, nat_eq, nat_lt, List, ℕ};
ghost use Rattle.spec_schedule.specs.Counting.{Counted, Numbers};
ghost use Rattle.spec_schedule.specs.Legal.{another_open, keeps_region};
ghost use Rattle.lgx_audit.specs.Along.{Shown};

use lgx_audit::{Count, TraceEvent, stepping};

/// Whether task u, which has these counts, has a region or a CPS open and isn't task t.
fn is_other_open(count: Count, u: usize, t: usize) -> bool
    ensures { result ≡ ((nat_lt 0 count.regions || count.cps_open) && not (nat_eq u t)) }
{
    (count.regions > 0 || count.cps_open) && u != t
}

/// Whether a task but this one has something open.
fn another_open(counts: &[Count], t: usize) -> bool
    ensures { (cs : List Counted) → Shown counts.now cs → result ≡ another_open t cs }
{
    for (u, count) in counts.iter().enumerate() {
        if is_other_open(*count, u, t) {
            return true;
        }
    }
    false
}

/// Whether no other task than the one that steps has something open.
pub(crate) fn keeps_region(counts: &[Count], e: &TraceEvent) -> bool
    ensures { (cs : List Counted) (ns : List Numbers) → Shown counts.now cs → result ≡ keeps_region (record { tasks = cs; programs = ns; event = e.now }) }
{
    match stepping(e) {
        Some(t) => !another_open(counts, t),
        None => true,
    }
}
