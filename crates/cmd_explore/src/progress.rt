// How far an exploration is, shown to whoever waits for it.
use lgx_explore::Progress;
use std::io::Eprint;
use std::time::{Clock, Duration, Instant};

/// Shows on standard error how far an exploration is, at most a line a second, once it has taken two seconds.
#[derive(Drop)]
pub struct Lines<'a, R> {
    rt: &'a R,
    /// When the next line is due; None if there is to be none.
    due: Option<Instant>,
}

impl<'a, R: Clock + Eprint> Lines<'a, R> {
    /// Lines from two seconds on, if they are wanted and the clock can be read.
    pub fn new(rt: &'a R, are_wanted: bool) -> Self {
        let due = if are_wanted { later(rt, 2) } else { None };
        Lines { rt, due }
    }
}

/// The time in whole seconds; None if the clock can't tell it.
fn later<R: Clock>(rt: &R, seconds: u64) -> Option<Instant> {
    let now = Instant::now(rt).ok()?;
    now.checked_add(Duration::from_secs(seconds))
}

/// Whether a time has come; not if the clock can't tell.
fn has_come<R: Clock>(rt: &R, due: Instant) -> bool {
    match Instant::now(rt) {
        Ok(now) => now >= due,
        Err(_) => false,
    }
}

impl<'a, R: Clock + Eprint> Progress for Lines<'a, R> {
    fn layer(&mut self, steps: u32, ticks: u32, nodes: usize) {
        let Some(due) = self.due else {
            return;
        };
        if has_come(self.rt, due) {
            let _ = eprintln!(self.rt; "step {steps}, tick {ticks}: {nodes} states");
            self.due = later(self.rt, 1);
        }
    }
}
