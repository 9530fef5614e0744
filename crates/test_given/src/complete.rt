// Whether a journal is complete for a script, counted line by line.
use crate::fields::{cut, number_of, unsigned_of, word_at};

/// The most lanes that a script may have, and the journal's own.
const LANES: usize = 32;

/// Why a journal isn't complete for a script; none if nothing was found. Not counted are answers, and whether a CPS is open:
/// after the script's steps or at the end.
pub(crate) fn journal_trouble(script: &str, journal: &str) -> Option<&'static str> {
    let header = cut(script, "run ").1;
    let steps = number_of(word_at(header, 0));
    let mut count = Count::new(number_of(word_at(header, 1)).max(1), script);
    for line in journal.split('\n') {
        if line == "end" {
            break;
        }
        let trouble = count.take(line);
        if trouble.is_some() {
            return trouble;
        }
    }
    count.trouble_at_end(steps)
}

/// What was counted of a journal so far.
#[derive(Drop)]
struct Count<'a> {
    pace: u64,
    lines: u64,
    steps: u64,
    ticks: u64,
    /// Whether a tick is to be the next event.
    is_tick_due: bool,
    /// For each lane the lines of the script after its last action that was made.
    left: [&'a str; LANES],
}

impl<'a> Count<'a> {
    fn new(pace: u64, script: &'a str) -> Count<'a> {
        Count {
            pace,
            lines: 0,
            steps: 0,
            ticks: 0,
            is_tick_due: false,
            left: [script; LANES],
        }
    }

    /// Counts a line of the journal. Answers what is wrong with it.
    fn take(&mut self, line: &str) -> Option<&'static str> {
        self.lines = self.lines.saturating_add(1);
        if self.lines == 1 {
            return (line != "mode run").then_some("the first line isn't mode run");
        }
        if line == "tick 1" {
            return self.take_tick();
        }
        if self.is_tick_due {
            return Some("a tick is left out");
        }
        let (word, rest) = cut(line, " ");
        if word == "cpu" {
            return self.take_steps(number_of(rest));
        }
        self.take_action(lane_of(word), rest)
    }

    fn take_tick(&mut self) -> Option<&'static str> {
        let was_due = self.is_tick_due;
        self.is_tick_due = false;
        self.ticks = self.ticks.saturating_add(1);
        (!was_due).then_some("a tick that isn't due")
    }

    fn take_steps(&mut self, steps: u64) -> Option<&'static str> {
        for _ in 0..steps.min(10_000_000) {
            if self.is_tick_due {
                return Some("a tick is left out between steps");
            }
            self.steps = self.steps.saturating_add(1);
            self.is_tick_due = self.steps.checked_rem(self.pace) == Some(0);
        }
        None
    }

    fn take_action(&mut self, lane: usize, action: &str) -> Option<&'static str> {
        let Some(left) = self.left.get_mut(lane) else {
            return Some("a line of no lane");
        };
        let (wanted, rest) = next_action(left, lane);
        *left = rest;
        let (at, wanted) = cut(wanted, " ");
        if wanted != action {
            return Some("an action that isn't the lane's next");
        }
        (self.ticks < number_of(at)).then_some("an action before its tick")
    }

    /// What is missing at the journal's end.
    fn trouble_at_end(&self, steps: u64) -> Option<&'static str> {
        if self.is_tick_due {
            return Some("the last tick is left out");
        }
        if self.steps < steps {
            return Some("too few steps");
        }
        for lane in 0..LANES {
            if !next_action(self.left[lane], lane).0.is_empty() {
                return Some("an action is left out");
            }
        }
        None
    }
}

/// The lane of a word `@N`; past the last one, where the word is no lane.
fn lane_of(word: &str) -> usize {
    let (before, lane) = cut(word, "@");
    if before.is_empty() && !lane.is_empty() {
        unsigned_of(lane) as usize
    } else {
        LANES
    }
}

/// The next action of a lane with its tick, and the lines after it; nothing and nothing, if there is none.
fn next_action(script: &str, lane: usize) -> (&str, &str) {
    let mut left = script;
    for _ in 0..script.len() {
        if left.is_empty() {
            break;
        }
        let (line, rest) = cut(left, "\n");
        let (word, action) = cut(line, " ");
        if lane_of(word) == lane {
            return (action, rest);
        }
        left = rest;
    }
    ("", "")
}
