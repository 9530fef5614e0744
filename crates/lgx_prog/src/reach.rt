// Which routines the main routine reaches by calls.
ghost use Rattle.std.specs.Prelude.{◌≡◌, ◌<◌, false, [], ◌∷◌, ◌++◌, length, filter, slice_index_or, fold, replicate, OnOk, IfOk};
ghost use Rattle.std.specs.List.{range_with_len};
ghost use Rattle.spec_scan.specs.Position.{ProgramRungs};
ghost use Rattle.spec_scan.specs.Prescan.{reached, called_by};
ghost use Rattle.lgx_prog.specs.Executes.{called_in};
ghost use Rattle.lgx_prog.specs.Search.{with_found, examined, number_if, AreFlat, option_list};

use crate::code::{Code, FlatRoutine};
use lgx_num::{Memory, Operand};
use lgx_rung::{Ins, Op};
use std::alloc::Global;
use std::marker::Model;

/// A search for the routines that are called: for each routine whether it was found, and those that were, in the order in
/// which they were found.
#[derive(Drop)]
pub(crate) struct Search {
    marks: Vec<bool>,
    found: Vec<usize>,
}

impl Model for Search {
    ghost use Rattle.lgx_prog.specs.Search.{Found};

    ghost Value = { Found };

    ghost view = { λ s. record { marks = s.marks.items; found = s.found.items } };
}

/// A search among `routines` routines that has found none.
fn begin(alloc: Global, routines: usize) -> Result<Search, Memory>
    ensures { IfOk result (λ search. search ≡ record { marks = replicate routines false; found = [] }) }
{
    Ok(Search {
        marks: vec![in alloc; false; routines]?,
        found: Vec::new(alloc),
    })
}

/// The routine that an instruction calls, by its number.
fn called(ins: &Ins) -> Option<u32>
    ensures { option_list result ≡ called_by ins.now.op ins.now.args }
{
    match (ins.op, ins.args.as_slice()) {
        (Op::Jsr, [Operand::Routine(number), ..]) => Some(*number),
        _ => None,
    }
}

/// A routine is called: it is found, unless it is there already or isn't a routine.
fn mark_found(search: &mut Search, routine: usize) -> Result<(), Memory>
    ensures { OnOk result (search.new ≡ with_found search.old routine) }
{
    if search.marks.get(routine) == Some(&false) {
        search.found.push(routine)?;
        search.marks[routine] = true;
    }
    Ok(())
}

/// The call of a piece of code, if it is one, is marked as found.
fn mark_call(search: &mut Search, piece: &Code) -> Result<(), Memory>
    ensures { OnOk result (search.new ≡ fold with_found search.old (called_in (piece.now ∷ []))) }
{
    if let Code::Execute(prepared) = piece {
        if let Some(number) = called(prepared.ins()) {
            mark_found(search, number as usize)?;
        }
    }
    Ok(())
}

/// The calls in a routine's code are marked as found.
fn mark_calls(search: &mut Search, code: &[Code]) -> Result<(), Memory>
    ensures { OnOk result (search.new ≡ fold with_found search.old (called_in code.now)) }
{
    for piece in code {
        mark_call(search, piece)?;
    }
    Ok(())
}

/// The calls of the routine that was found as number i, if there is one, are marked as found.
fn examine(search: &mut Search, routines: &[FlatRoutine], i: usize) -> Result<(), Memory>
    ensures { OnOk result (search.new ≡ examined routines.now search.old i) }
{
    if let Some(number) = search.found.get(i).copied() {
        if let Some(routine) = routines.get(number) {
            mark_calls(search, routine.code())?;
        }
    }
    Ok(())
}

/// A number is kept where it is marked.
fn push_if(numbers: &mut Vec<usize>, number: usize, is_marked: bool) -> Result<(), Memory>
    ensures { OnOk result (numbers.new.items ≡ numbers.old.items ++ number_if is_marked number) }
{
    if is_marked {
        numbers.push(number)?;
    }
    Ok(())
}

/// The numbers at which marks are set, in order.
#[tactic(auto, using(crate::proofs::Searching::filter_next))]
fn marked(alloc: Global, marks: &[bool]) -> Result<Vec<usize>, Memory>
    ensures { IfOk result (λ numbers. numbers.items ≡ filter (λ n. slice_index_or marks.now n false) (range_with_len 0 (length marks.now))) }
{
    let mut numbers = Vec::new(alloc);
    for (number, is_marked) in marks.iter().enumerate() {
        push_if(&mut numbers, number, *is_marked)?;
    }
    Ok(numbers)
}

/// The routines that `main` reaches by calls, itself among them, in their order.
pub(crate) fn reached(
    alloc: Global,
    routines: &[FlatRoutine],
    main: usize,
) -> Result<Vec<usize>, Memory>
    requires { main < length routines.now }
    ensures { IfOk result (λ numbers. (program : ProgramRungs) → program.main ≡ main → AreFlat routines.now program.routines → numbers.items ≡ reached program) }
{
    let mut search = begin(alloc, routines.len())?;
    mark_found(&mut search, main)?;
    for i in 0..routines.len() {
        examine(&mut search, routines, i)?;
    }
    marked(alloc, &search.marks)
}
