// Reads a link script.
ghost use Rattle.std.specs.Prelude.{◌≡◌, ◌+◌, ◌<◌, ◌^◌, [], ◌∷◌, ◌++◌, length, Ok, Err, IfOk, OnOk, IfErr};
ghost use Rattle.spec_text.specs.TextLines.{lines};
ghost use Rattle.spec_link.specs.LinkText.{no_counts, steps_from, read_header, link_of};
ghost use Rattle.lgx_link.specs.Reading.{IfLine, first_read};

use crate::error::{LinkError, error_at};
use crate::header::read_header;
use crate::reader::StepReader;
use lgx_edit::Plant;
use lgx_journal::{is_last, is_skipped, next_line};
use lgx_num::{Items, Memory, Name};
use spec_link::{LinkCode, LinkFault, LinkScript, LinkStep};
use std::alloc::Global;

/// Puts a line after the others.
fn push_step(steps: &mut Vec<LinkStep>, step: LinkStep) -> Result<(), Memory>
    ensures { OnOk result (steps.new.items ≡ steps.old.items ++ step ∷ []) }
{
    steps.push(step)?;
    Ok(())
}

/// Reads the lines after the first, which has this number.
fn read_steps(
    alloc: Global,
    steps: &mut Vec<LinkStep>,
    first: u64,
    text: &[u8],
) -> Result<(), LinkError>
    requires none { steps.old.items ≡ [] }
    requires room { first + length text.now < 2 ^ 63 }
    ensures steps { OnOk result (steps_from (first + 1) no_counts (lines text.now) ≡ Ok steps.new.items) }
    ensures fault { IfErr result (λ e. IfLine e (λ fault. steps_from (first + 1) no_counts (lines text.now) ≡ Err fault)) }
{
    let mut reader = StepReader::new();
    let mut number = first;
    let mut rest = text;
    while let Some((line, after)) = next_line(rest) {
        number += 1;
        rest = after;
        if is_skipped(line) {
            continue;
        }
        if is_last(line) {
            return Ok(());
        }
        match reader.read_step(alloc, line) {
            Ok(step) => push_step(steps, step)?,
            Err(error) => return Err(error_at(error, number)),
        }
    }
    Err(LinkError::Line(LinkFault {
        code: LinkCode::J1,
        line: number + 1,
    }))
}

/// Reads the lines from the first that isn't skipped, which has this number, and the text after it.
fn read_all(
    alloc: Global,
    a: &Plant,
    b: &Plant,
    line: &[u8],
    number: u64,
    text: &[u8],
) -> Result<LinkScript, LinkError>
    requires { number + length text.now < 2 ^ 63 }
    ensures script { IfOk result (λ script. first_read number (lines text.now) (read_header a.now b.now line.now) ≡ Ok script) }
    ensures fault { IfErr result (λ e. IfLine e (λ fault. first_read number (lines text.now) (read_header a.now b.now line.now) ≡ Err fault)) }
{
    let (output, input) = match read_header(a, b, line) {
        Ok(names) => names,
        Err(code) => return Err(LinkError::Line(LinkFault { code, line: number })),
    };
    let mut steps = Vec::new(alloc);
    read_steps(alloc, &mut steps, number, text)?;
    Ok(LinkScript {
        output,
        input,
        steps: Items::of(steps),
    })
}

/// The link script that a text is for two projects, or its first line with a cause and the line's first cause.
///
/// J1: a line has none of the forms or over 65,536 bytes, or the text has no line `end`. J2 and J4: as in a journal, for the
/// lines of each controller; J4 is also for the 10,001st `send` and the 100,001st `deliver`. U1, at the first line: no output
/// connection of the first project has the first name, no input connection of the second has the other, or they differ in
/// their number of words.
pub fn read_link(alloc: Global, bytes: &[u8], a: &Plant, b: &Plant) -> Result<LinkScript, LinkError>
    ensures script { IfOk result (λ script. link_of a.now b.now bytes.now ≡ Ok script) }
    ensures fault { IfErr result (λ e. IfLine e (λ fault. link_of a.now b.now bytes.now ≡ Err fault)) }
{
    let mut number = 0u64;
    let mut rest = bytes;
    while let Some((line, after)) = next_line(rest) {
        number += 1;
        rest = after;
        if is_skipped(line) {
            continue;
        }
        return read_all(alloc, a, b, line, number, rest);
    }
    Err(LinkError::Line(LinkFault {
        code: LinkCode::J1,
        line: number + 1,
    }))
}
