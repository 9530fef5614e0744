// A report read line by line.
ghost use Rattle.std.specs.Prelude.{◌≡◌, ◌+◌, ◌≤◌, ◌<◌, ◌^◌, ◌∷◌, [], IfOk, IfErr, IsTrue, OnOk, Some, Ok, Err};
ghost use Rattle.std.specs.List.{list_any};
ghost use Rattle.std.specs.Str.{bytes_eq};
ghost use Rattle.spec_base.specs.Pieces.{pieces};
ghost use Rattle.spec_base.specs.declared.limits.TheConstants.{MAX_REPORT_LINES};
ghost use Rattle.lgx_chart.specs.Charts.{Seen as SeenSoFar, nothing, with_name, tasks_with, watches_with, seen_with, is_within_limits, comes_after, taken, entry_at, chart_at_end, chart_of};
ghost use Rattle.lgx_chart.specs.Reading.{IfFault, refusal, with_entries};

use crate::entry::{Chart, End, Entry, Note};
use crate::error::{ChartCode, ChartError, at_line};
use crate::forms::{line_end, line_entry};
use crate::words::owned;
use lgx_num::{Items, Memory, split_first};
use spec_base::limits::{MAX_REPORT_LINES, MAX_TASKS};
use spec_machine::limits::MAX_WATCHES;
use std::alloc::Global;
use std::marker::Model;

/// What is known from the lines before a line.
#[derive(Drop)]
struct Seen {
    lines: u64,
    tick: u32,
    step: u32,
    tasks: Vec<Items<u8>>,
    watches: Vec<Items<u8>>,
}

impl Model for Seen {
    ghost use Rattle.spec_base.specs.declared.limits.TheConstants.{MAX_REPORT_LINES};
    ghost use Rattle.lgx_chart.specs.Charts.{Seen as SeenSoFar};

    ghost Value = { SeenSoFar };

    ghost view = { λ s. record {
      lines = s.lines;
      tick = s.tick;
      step = s.step;
      tasks = s.tasks.items;
      watches = s.watches.items;
    } };
}

/// Whether a name is in a list.
fn has_name(names: &[Items<u8>], name: &[u8]) -> bool
    ensures { result ≡ list_any (λ n. bytes_eq n name.now) names.now }
{
    names.iter().any(|known| known.as_slice() == name)
}

/// Lists a name where it comes first.
fn add_name(alloc: Global, names: &mut Vec<Items<u8>>, name: &[u8]) -> Result<(), Memory>
    ensures { OnOk result (names.new.items ≡ with_name names.old.items name.now) }
{
    if !has_name(names, name) {
        names.push(owned(alloc, name)?)?;
    }
    Ok(())
}

impl Seen {
    /// What is seen before the first line: nothing.
    fn new(alloc: Global) -> Seen
        ensures { result ≡ nothing }
    {
        Seen {
            lines: 0,
            tick: 0,
            step: 0,
            tasks: Vec::new(alloc),
            watches: Vec::new(alloc),
        }
    }

    /// Whether neither the tick nor the number of steps goes back.
    fn comes_after(&self, tick: u32, step: u32) -> bool
        ensures { result ≡ comes_after self.now tick step }
    {
        self.tick <= tick && self.step <= step
    }

    /// Whether a report may have so much.
    fn is_within_limits(&self) -> bool
        ensures value { result ≡ is_within_limits self.now }
        ensures few { IsTrue result → self.now.lines ≤ MAX_REPORT_LINES }
    {
        self.lines <= MAX_REPORT_LINES as u64
            && self.tasks.len() <= MAX_TASKS
            && self.watches.len() <= MAX_WATCHES
    }

    /// Lists the task that began, or the watched place that changed.
    fn add_names(&mut self, alloc: Global, note: &Note) -> Result<(), Memory>
        ensures { OnOk result (self.new ≡ record self.old {
          tasks = tasks_with self.old.tasks note.now;
          watches = watches_with self.old.watches note.now;
        }) }
    {
        match note {
            Note::Begin { task, .. } => add_name(alloc, &mut self.tasks, task.as_slice()),
            Note::Set { watch, .. } => add_name(alloc, &mut self.watches, watch.as_slice()),
            Note::Reply(_) | Note::Fault(_) => Ok(()),
        }
    }

    /// Counts a line that says this, if it may come here.
    fn take(&mut self, alloc: Global, entry: &Entry) -> Result<(), ChartError>
        requires { self.old.lines < 2 ^ 63 }
        ensures entry { OnOk result (taken self.old entry.now ≡ Ok entry.now) }
        ensures counted { OnOk result (self.new ≡ seen_with self.old entry.now) }
        ensures few { OnOk result (self.new.lines ≤ MAX_REPORT_LINES) }
        ensures fault { IfErr result (IfFault (λ fault.
            refusal (self.old.lines + 1) (taken self.old entry.now) ≡ Some fault)) }
    {
        let number = self.lines + 1;
        if !self.comes_after(entry.tick, entry.step) {
            return Err(at_line(ChartCode::V2, number));
        }
        self.count(alloc, entry)?;
        if !self.is_within_limits() {
            return Err(at_line(ChartCode::V3, number));
        }
        Ok(())
    }

    /// Counts a line that says this.
    fn count(&mut self, alloc: Global, entry: &Entry) -> Result<(), Memory>
        requires { self.old.lines < 2 ^ 63 }
        ensures { OnOk result (self.new ≡ seen_with self.old entry.now) }
    {
        self.add_names(alloc, &entry.note)?;
        self.lines += 1;
        self.tick = entry.tick;
        self.step = entry.step;
        Ok(())
    }

    /// What a line before the end line says, which is then counted, or its first cause.
    fn read_entry(&mut self, alloc: Global, line: &[u8]) -> Result<Entry, ChartError>
        requires { self.old.lines < 2 ^ 63 }
        ensures entry { IfOk result (λ e. entry_at self.old (pieces 32 line.now) ≡ Ok e) }
        ensures counted { IfOk result (λ e. self.new ≡ seen_with self.old e) }
        ensures few { IfOk result (λ _. self.new.lines ≤ MAX_REPORT_LINES) }
        ensures fault { IfErr result (IfFault (λ fault.
            refusal (self.old.lines + 1) (entry_at self.old (pieces 32 line.now)) ≡ Some fault)) }
    {
        let Some(entry) = line_entry(alloc, line)? else {
            return Err(at_line(ChartCode::V1, self.lines + 1));
        };
        match self.take(alloc, &entry) {
            Ok(()) => Ok(entry),
            Err(error) => Err(error),
        }
    }

    /// The report that ends with this line and the text after it.
    #[tactic(auto, using(crate::proofs::Lines::end_whole, crate::proofs::Lines::end_late, crate::proofs::Lines::end_more))]
    fn end(self, entries: Vec<Entry>, end: End, after: &[u8]) -> Result<Chart, ChartError>
        requires { self.lines < 2 ^ 63 }
        ensures chart { IfOk result (λ chart. with_entries entries.items (chart_at_end self end (pieces 10 after.now)) ≡ Ok chart) }
        ensures fault { IfErr result (IfFault (λ fault. with_entries entries.items (chart_at_end self end (pieces 10 after.now)) ≡ Err fault)) }
    {
        if !self.comes_after(end.tick, end.step) {
            return Err(at_line(ChartCode::V2, self.lines + 1));
        }
        if !after.is_empty() {
            return Err(at_line(ChartCode::V5, self.lines + 2));
        }
        let Seen { tasks, watches, .. } = self;
        Ok(Chart {
            tasks: Items::of(tasks),
            watches: Items::of(watches),
            entries: Items::of(entries),
            end,
        })
    }
}

/// Reads the lines before the end line. Answers the end line and the text after it.
#[tactic(auto, using(crate::proofs::Lines::chart_starts, crate::proofs::Lines::chart_goes_on, crate::proofs::Lines::chart_ends, crate::proofs::Lines::chart_last))]
fn read_lines<'a>(
    alloc: Global,
    seen: &mut Seen,
    entries: &mut Vec<Entry>,
    bytes: &'a [u8],
) -> Result<(End, &'a [u8]), ChartError>
    requires nothing { seen.old ≡ nothing }
    requires none { entries.old.items ≡ [] }
    ensures chart { IfOk result (λ ending.
        with_entries entries.new.items (chart_at_end seen.new ending.0 (pieces 10 ending.1.now)) ≡ chart_of bytes.now) }
    ensures few { IfOk result (λ _. seen.new.lines ≤ MAX_REPORT_LINES) }
    ensures fault { IfErr result (IfFault (λ fault. chart_of bytes.now ≡ Err fault)) }
{
    let mut rest = bytes;
    while let Some((line, after)) = split_first(rest, b'\n') {
        if let Some(end) = line_end(alloc, line)? {
            return Ok((end, after));
        }
        match seen.read_entry(alloc, line) {
            Ok(entry) => entries.push(entry)?,
            Err(error) => return Err(error),
        }
        rest = after;
    }
    Err(at_line(ChartCode::V4, seen.lines + 1))
}

/// What a report says, or the first line that is none of a report, and why.
pub fn read_chart(alloc: Global, bytes: &[u8]) -> Result<Chart, ChartError>
    ensures chart { IfOk result (λ chart. chart_of bytes.now ≡ Ok chart) }
    ensures fault { IfErr result (IfFault (λ fault. chart_of bytes.now ≡ Err fault)) }
{
    let mut seen = Seen::new(alloc);
    let mut entries = Vec::new(alloc);
    match read_lines(alloc, &mut seen, &mut entries, bytes) {
        Ok((end, after)) => seen.end(entries, end, after),
        Err(error) => Err(error),
    }
}
