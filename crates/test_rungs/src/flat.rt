// Rows of flat code.
use crate::errors::Refusal;
use crate::program::{Routines, read_program};
use lgx_num::Memory;
use lgx_prog::{Code, FlatProgram, FlatRoutine, Rung, flatten};
use lgx_rung::Op;
use std::alloc::Global;
use test_rows::Told;

/// `code | RUNGS | ..`: the code of a routine of these rungs, and the place at which each of its rungs starts, and
/// one more.
///
/// `R` is a rung's start, `a` a XIC and `b` a XIO, `(` a branch's start and `<` that of one that passes its condition
/// on, `,` a leg's end and `)` a branch's end.
pub fn say_routine(alloc: Global, said: &mut Told, text: &str) -> Result<(), Refusal> {
    let program = read_program(alloc, text)?;
    match program.as_slice() {
        [rungs, ..] => Ok(say_rungs(alloc, said, rungs.as_slice())?),
        [] => Err(Refusal::Form),
    }
}

fn say_rungs(alloc: Global, said: &mut Told, rungs: &[Rung]) -> Result<(), Memory> {
    let routine = flatten(alloc, rungs)?;
    say_code(alloc, said, routine.code())?;
    say_places(said, &routine, rungs.len());
    Ok(())
}

fn say_places(said: &mut Told, routine: &FlatRoutine, rungs: usize) {
    for rung in 0..rungs {
        said.count(routine.place(rung as u64));
    }
    said.count(routine.place(rungs as u64));
}

/// Says the letters of code as one word.
fn say_code(alloc: Global, said: &mut Told, code: &[Code]) -> Result<(), Memory> {
    let letters = letters(alloc, code)?;
    said.bytes(&letters);
    Ok(())
}

fn letters(alloc: Global, code: &[Code]) -> Result<Vec<u8>, Memory> {
    let mut letters = Vec::new(alloc);
    for piece in code {
        letters.push(letter(piece))?;
    }
    Ok(letters)
}

fn letter(piece: &Code) -> u8 {
    match piece {
        Code::RungStart => b'R',
        Code::Execute(ins) => match ins.op() {
            Op::Xic => b'a',
            Op::Xio => b'b',
            Op::Jsr => b'j',
            _ => b'?',
        },
        Code::BranchStart { empty_leg: false } => b'(',
        Code::BranchStart { empty_leg: true } => b'<',
        Code::LegEnd => b',',
        Code::BranchEnd => b')',
    }
}

/// `program | MAIN ? RUNGS # RUNGS .. | ..`: of a program of these routines the number of the main one, those that it
/// reaches, and then the code of each, with the place of its second rung, and of one more.
pub fn say_program(alloc: Global, said: &mut Told, main: &str, rungs: &str) -> Result<(), Refusal> {
    let main = main.trim().parse::<u32>().ok().ok_or(Refusal::Form)?;
    let routines = read_program(alloc, rungs)?;
    say_flat(alloc, said, &routines, main)
}

fn say_flat(alloc: Global, said: &mut Told, routines: &Routines, main: u32) -> Result<(), Refusal> {
    let routines = routines.as_slice();
    if main as usize >= routines.len() {
        return Err(Refusal::Form);
    }
    let flat = FlatProgram::build(alloc, routines, main)?;
    say_reached(said, &flat);
    say_codes(alloc, said, &flat, routines.len())
}

fn say_reached(said: &mut Told, flat: &FlatProgram) {
    said.number(i64::from(flat.main()));
    said.word("reaches");
    for routine in flat.reached() {
        said.count(*routine);
    }
}

/// Says the code of each routine with the place of its second rung, and the length of the code after the last.
fn say_codes(
    alloc: Global,
    said: &mut Told,
    flat: &FlatProgram,
    routines: usize,
) -> Result<(), Refusal> {
    for routine in 0..routines {
        say_code(alloc, said, flat.code(routine))?;
        said.count(flat.place(routine, 1));
    }
    said.count(flat.code(routines).len());
    Ok(())
}
