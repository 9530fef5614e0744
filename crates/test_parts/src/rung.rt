// Mnemonics, and neutral text.
use crate::trouble::Trouble;
use lgx_neutral::{RungError, read_rung, write_rung};
use lgx_num::Memory;
use lgx_rung::{Op, SourceRung, TextFault};
use spec_base::limits::MAX_FILE_BYTES;
use std::alloc::Global;
use test_rows::{Told, unescaped};

/// `op | LETTERS | ..`: the mnemonic that they are, its family and the kinds of the operands that it always has, or
/// `no`.
pub fn say_op(said: &mut Told, text: &str) {
    match Op::read(text.as_bytes()) {
        Some(op) => say_kinds(said, op),
        None => said.word("no"),
    }
}

fn say_kinds(said: &mut Told, op: Op) {
    said.bytes(op.text());
    said.shown(&op.family());
    for kind in op.fixed_kinds() {
        said.shown(kind);
    }
}

/// `rung | TEXT | ..`: the canonical text of a copy of the rung that the text spells, or the code and the place of
/// its first fault.
///
/// In the text, `\s`, `\t`, `\r`, `\n`, `\0` and `\f` are the blank, the tab, CR, LF and the bytes 0 and 255.
pub fn say_rung(alloc: Global, said: &mut Told, text: &str) -> Result<(), Trouble> {
    let bytes = unescaped(alloc, text)?;
    if bytes.len() > MAX_FILE_BYTES {
        return Err(Trouble::Form);
    }
    match read_rung(alloc, &bytes) {
        Ok(rung) => Ok(say_copy(alloc, said, &rung)?),
        Err(RungError::Text(fault)) => {
            say_fault(said, fault);
            Ok(())
        }
        Err(RungError::Memory) => Err(Trouble::Memory),
    }
}

fn say_copy(alloc: Global, said: &mut Told, rung: &SourceRung) -> Result<(), Memory> {
    let copy = rung.copied(alloc)?;
    let text = write_rung(alloc, &copy)?;
    said.bytes(&text);
    Ok(())
}

fn say_fault(said: &mut Told, fault: TextFault) {
    let TextFault { code, at } = fault;
    said.shown(&code);
    said.number(i64::from(at));
}
