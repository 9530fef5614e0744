//! Tables of rows: their one form, the loop over them, the texts that rows name, and what a program says of a row.
//!
//! A row is a line `KIND | GIVEN | WANTED`. Empty lines, and lines that begin with `--`, are no rows. Neither are
//! `text | NAME | CONTENTS`, which names a text for the rows below it until another has the name, and `more | NAME | CONTENTS`,
//! which adds to the text of that name. In contents `\n` stands for a line feed, `\s` for a blank and `\t` for a tabulator.
#![tactic(auto)]

mod short;
mod table;
mod texts;
mod told;
mod words;

pub use short::{expanded, unescaped};
use std::alloc::Global;
use std::io;
pub use table::{Row, judge_table};
pub use texts::{Texts, push_plain};
pub use told::Told;
pub use words::{kind_at, name_at, number_at, value_at, word_at};

/// Judges each row on standard input: prints what differs, with what was found in its place, and at the end how many rows
/// there were. Empty lines, and lines that begin with `--`, are no rows.
pub fn judge_rows<F: Fn(Global, &str) -> io::Result<Option<String>>>(
    rt: HostRuntime,
    found: F,
) -> io::Result<()>
    requires { F.IsAlwaysCallable found }
{
    let mut rows = 0u32;
    let mut differ = 0u32;
    for line in rt.lines(rt.alloc()) {
        let line = line?;
        let row = line.as_str().trim();
        if is_row(row) {
            rows = rows.saturating_add(1);
            if let Some(found) = found(rt.alloc(), row)? {
                differ = differ.saturating_add(1);
                println!(rt; "{row}")?;
                println!(rt; "    {found}")?;
            }
        }
    }
    println!(rt; "{rows} rows, {differ} differ")
}

/// Whether a line is a row.
fn is_row(line: &str) -> bool {
    !line.is_empty() && !line.starts_with("--")
}

/// The kind of a row, what is given, and what is to come out: `KIND | GIVEN | WANTED`.
pub fn parts(row: &str) -> (&str, &str, &str) {
    let (kind, row) = row.split_once('|').unwrap_or((row, ""));
    let (given, wanted) = row.split_once('|').unwrap_or((row, ""));
    (kind.trim(), given.trim(), wanted.trim())
}
