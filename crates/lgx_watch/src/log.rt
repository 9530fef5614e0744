// The lines of the report, as far as there is room, and the number of the others.
ghost use Rattle.std.specs.Prelude.{◌≡◌, ℕ, ◌+◌, ◌≤◌, ◌<◌, ◌^◌, List, [], ◌∷◌, ◌++◌, length, slice_get, true, false, IfOk, Some};
ghost use Rattle.spec_base.specs.declared.limits.TheConstants.{MAX_REPORT_LINES};
ghost use Rattle.spec_machine.specs.Report.{Stamped as StampedLine};
ghost use Rattle.lgx_watch.specs.Kept.{KeptLines, no_lines, kept_of, with_line};

use lgx_num::Memory;
use spec_base::limits::MAX_REPORT_LINES;
use spec_machine::Line;
use std::alloc::Global;
use std::marker::Model;

/// A line with the tick and the number of processor steps, both after its event.
#[derive(Clone, Copy)]
pub(crate) struct Stamped {
    pub tick: u32,
    pub step: u32,
    pub line: Line,
}

impl Model for Stamped {
    ghost use Rattle.spec_machine.specs.Report.{Stamped as StampedLine};

    ghost Value = { StampedLine };

    ghost view = { λ s. record { tick = s.tick; step = s.step; line = s.line } };

    ghost inverse = { λ s. record { tick = s.tick; step = s.step; line = s.line } };
}

/// The first [`MAX_REPORT_LINES`] lines of a run, and the number of the others. Its room is taken once, by [`Log::new`].
pub struct Log {
    lines: Vec<Stamped>,
    lost: u64,
}

impl Drop for Log {
    fn drop(self) {
        let Log { lines: _, lost: _ } = self;
    }
}

impl Model for Log {
    ghost use Rattle.std.specs.Prelude.{◌≤◌, length, vec_capacity};
    ghost use Rattle.spec_base.specs.declared.limits.TheConstants.{MAX_REPORT_LINES};
    ghost use Rattle.lgx_watch.specs.Kept.{KeptLines, KeepsRoom};

    ghost Value = { KeptLines };

    ghost view = { λ l. record { lines = l.lines.items; lost = l.lost } };

    ghost invariant = { λ l. KeepsRoom (length l.lines.items) (vec_capacity l.lines) l.lost };
}

impl Log {
    /// A log without a line, with room for all that it will keep.
    pub fn new(alloc: Global) -> Result<Log, Memory>
        ensures { IfOk result (λ log. log ≡ no_lines) }
    {
        Ok(Log {
            lines: Vec::with_capacity(alloc, MAX_REPORT_LINES)?,
            lost: 0,
        })
    }

    /// Keeps a line after the others, or counts it if the room is full. It takes no memory.
    pub fn push(&mut self, tick: u32, step: u32, line: Line)
        requires { self.old.lost < 2 ^ 63 }
        ensures step { self.new ≡ with_line self.old (record { tick = tick; step = step; line = line }) }
        ensures holds { (all : List StampedLine) → self.old ≡ kept_of all → self.new ≡ kept_of (all ++ record { tick = tick; step = step; line = line } ∷ []) }
    {
        if self.lines.len() < MAX_REPORT_LINES {
            self.lines.push_reserved(Stamped { tick, step, line });
        } else {
            self.lost += 1;
        }
    }

    /// Whether there is no room for another line.
    #[inline(always)]
    pub fn is_full(&self) -> bool
        ensures full { result ≡ true → length self.now.lines ≡ MAX_REPORT_LINES }
        ensures room { result ≡ false → length self.now.lines < MAX_REPORT_LINES }
    {
        self.lines.len() >= MAX_REPORT_LINES
    }

    /// Counts lines for which there is no room.
    #[inline(always)]
    pub fn lose(&mut self, count: u64)
        requires full { length self.old.lines ≡ MAX_REPORT_LINES }
        requires room { self.old.lost + count < 2 ^ 63 }
        ensures { self.new ≡ record { lines = self.old.lines; lost = self.old.lost + count } }
    {
        self.lost += count;
    }

    /// Takes all lines away, and counts none any more. The room stays, so it takes no memory.
    pub fn clear(&mut self)
        ensures { self.new ≡ no_lines }
    {
        self.lines.clear();
        self.lost = 0;
    }

    /// The number of lines that are kept.
    pub fn lines(&self) -> u32
        ensures value { result ≡ length self.now.lines }
        ensures room { result ≤ MAX_REPORT_LINES }
    {
        self.lines.len() as u32
    }

    /// The number of lines for which there was no room.
    pub fn lost(&self) -> u64
        ensures value { result ≡ self.now.lost }
        ensures full { 0 < result → length self.now.lines ≡ MAX_REPORT_LINES }
    {
        self.lost
    }

    /// Line number `i` of those that are kept, counted from 0.
    pub(crate) fn line(&self, i: u32) -> Stamped
        requires { i < length self.now.lines }
        ensures { slice_get self.now.lines i ≡ Some result }
    {
        self.lines[i as usize]
    }
}
