// The text of the counts.
ghost use Rattle.std.specs.Prelude.{◌≡◌, ◌++◌, OnOk, IfOk, List, map, flat_map, ℕ, decimal};
ghost use Rattle.lgx_cover.specs.Texts.{count_line, place_text, counts_text};
ghost use Rattle.lgx_cover.specs.RowTexts.{row_text, table_text, tables_text};

use crate::row::Counts;
use crate::table::Table;
use crate::version::Version;
use itoa::Buffer;
use lgx_num::Memory;
use lgx_watch::push_count;
use std::alloc::Global;

/// Adds the decimal digits of a number.
fn push_number(text: &mut Vec<u8>, number: u32) -> Result<(), Memory>
    ensures { OnOk result (text.new.items ≡ text.old.items ++ decimal number) }
{
    let mut digits = Buffer::new();
    text.extend_from_slice(digits.format(number).as_bytes())?;
    Ok(())
}

/// Where an instruction is: in which version, in which routine of it, and before how many pieces of code.
#[derive(Clone, Copy)]
struct At {
    version: Version,
    routine: usize,
    left: usize,
}

/// Adds the line of an instruction.
#[tactic(auto, unfolding(crate::specs::Texts::count_line))]
fn push_line(text: &mut Vec<u8>, at: At, counts: Counts) -> Result<(), Memory>
    ensures { OnOk result (text.new.items ≡ text.old.items ++ count_line at.version at.routine at.left counts) }
{
    push_number(text, at.version.program)?;
    push_count(text, u64::from(at.version.number))?;
    push_count(text, at.routine as u64)?;
    push_count(text, at.left as u64)?;
    push_count(text, u64::from(counts.with_true))?;
    push_count(text, u64::from(counts.with_false))?;
    text.push(b'\n')?;
    Ok(())
}

/// Adds the line of an instruction, if it was executed.
fn push_place(text: &mut Vec<u8>, at: At, counts: Counts) -> Result<(), Memory>
    ensures { OnOk result (text.new.items ≡ text.old.items ++ place_text at.version at.routine at.left counts) }
{
    if counts.with_true == 0 && counts.with_false == 0 {
        return Ok(());
    }
    push_line(text, at, counts)
}

/// Adds the lines of a routine, in the order of its code.
fn push_row(
    text: &mut Vec<u8>,
    version: Version,
    routine: usize,
    row: &[Counts],
) -> Result<(), Memory>
    ensures { OnOk result (text.new.items ≡ text.old.items ++ row_text version routine row.now) }
{
    let mut left = row.len();
    while left > 0 {
        left -= 1;
        let at = At {
            version,
            routine,
            left,
        };
        push_place(text, at, row[left])?;
    }
    Ok(())
}

/// Adds the lines of a version, routine by routine.
fn push_table(text: &mut Vec<u8>, table: &Table) -> Result<(), Memory>
    ensures { OnOk result (text.new.items ≡ text.old.items ++ table_text table.now) }
{
    let rows = table.rows();
    for routine in 0..rows.len() {
        push_row(text, table.version(), routine, rows[routine].as_slice())?;
    }
    Ok(())
}

/// The lines of all versions, and the end line.
pub(crate) fn text_of(alloc: Global, tables: &[Table]) -> Result<Vec<u8>, Memory>
    ensures { IfOk result (λ text. text.items ≡ tables_text tables.now) }
{
    let mut text = Vec::new(alloc);
    for table in tables {
        push_table(&mut text, table)?;
    }
    text.extend_from_slice(b"end\n")?;
    Ok(text)
}
