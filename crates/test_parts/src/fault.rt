// The log of faults.
use crate::trouble::Trouble;
use lgx_fault::FaultLog;
use spec_tables::{Fault, Severity};
use std::alloc::Global;
use test_rows::{Told, number_at};

/// `log | COUNT ? NUMBER .. | ..`: after COUNT faults, one a tick from tick 0 on, whether the log is empty, how
/// many it keeps, and the ticks of those of these numbers.
pub fn say_log(alloc: Global, said: &mut Told, count: &str, numbers: &str) -> Result<(), Trouble> {
    let mut log = FaultLog::new(alloc)?;
    for tick in 0..number_at(said, count, 0) {
        log.note(fault_at(tick));
    }
    say_kept(said, &log, numbers);
    Ok(())
}

fn say_kept(said: &mut Told, log: &FaultLog, numbers: &str) {
    said.truth(log.is_empty());
    said.number(i64::from(log.len()));
    for number in numbers.split_whitespace() {
        let number = number_at(said, number, 0);
        said.or_none(tick_of(log.get(number)));
    }
}

fn fault_at(tick: u32) -> Fault {
    Fault {
        severity: Severity::Minor,
        kind: 6,
        code: 2,
        task: 3,
        program: Some(1),
        tick,
    }
}

/// The tick of a fault that is as it was noted.
fn tick_of(fault: Option<Fault>) -> Option<u32> {
    let fault = fault?;
    if fault == fault_at(fault.tick) {
        Some(fault.tick)
    } else {
        None
    }
}
