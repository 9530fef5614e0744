// The loop over the rows of a table that has texts.
use crate::texts::Texts;
use crate::told::Told;
use crate::{is_row, parts};
use std::alloc::{AllocError, Global};
use std::io::{self, Input, Print};

/// A row: its kind, what is given, and what is to come out.
#[derive(Clone, Copy)]
pub struct Row<'a> {
    pub kind: &'a str,
    pub given: &'a str,
    pub wanted: &'a str,
}

/// What was read of a table so far.
#[derive(Drop)]
struct Table {
    texts: Texts,
    /// What comes out of the row.
    told: Told,
    rows: u32,
    differ: u32,
}

impl Table {
    fn new(alloc: Global) -> Table {
        Table {
            texts: Texts::new(alloc),
            told: Told::new(alloc),
            rows: 0,
            differ: 0,
        }
    }

    /// Keeps what a row says if it is one of a text, and answers whether it is.
    fn keep(&mut self, row: &Row<'_>) -> Result<bool, AllocError> {
        match row.kind {
            "text" => self.texts.name(row.given, row.wanted)?,
            "more" => self.texts.add(row.given, row.wanted)?,
            _ => return Ok(false),
        }
        Ok(true)
    }

    /// Counts a row, and prints it if what came out isn't what it wants.
    fn count<R: Print>(&mut self, rt: &R, line: &str, wanted: &str) -> io::Result<()> {
        self.rows = self.rows.saturating_add(1);
        if self.told.is(wanted) {
            return Ok(());
        }
        self.differ = self.differ.saturating_add(1);
        println!(rt; "{line}\n    {}", self.told.as_str())
    }
}

/// Judges each row on standard input by what `found` says of it: prints what differs, with what came out in its place, and at
/// the end how many rows there were.
pub fn judge_table<R: Input + Print + AllocGlobal, F: Fn(&Texts, &Row<'_>, &mut Told)>(
    rt: &R,
    found: F,
) -> io::Result<()>
    requires { F.IsAlwaysCallable found }
{
    let mut table = Table::new(rt.alloc());
    for line in rt.lines(rt.alloc()) {
        let line = line?;
        let line = line.as_str().trim();
        if is_row(line) {
            let (kind, given, wanted) = parts(line);
            let row = Row {
                kind,
                given,
                wanted,
            };
            if !table.keep(&row)? {
                table.told.clear();
                found(&table.texts, &row, &mut table.told);
                table.count(rt, line, wanted)?;
            }
        }
    }
    println!(rt; "{} rows, {} differ", table.rows, table.differ)
}
