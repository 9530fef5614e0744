// Whether pieces of flat code are the same, and the same once more.
ghost use Rattle.std.specs.Prelude.{◌≡◌, true, ◌++◌, OnOk, IfOk};

use crate::code::{Code, FlatRoutine};
use crate::quick::quick_list;
use lgx_num::{Block, Index, Memory, Operand, Path, Steps};
use lgx_rung::{Args, Ins};
use std::alloc::Global;

/// Whether the places begin at the same bit, and are moved by the same subscripts.
fn same_steps(a: &Steps, b: &Steps) -> bool
    ensures { result ≡ true → a.now ≡ b.now }
{
    same_indices(a.as_slice(), b.as_slice())
}

/// Whether the subscripts are the same.
fn same_index(a: Index, b: Index) -> bool
    ensures { result ≡ true → a ≡ b }
{
    a == b
}

/// Whether the subscripts are the same, one by one.
fn same_indices(a: &[Index], b: &[Index]) -> bool
    ensures { result ≡ true → a.now ≡ b.now }
{
    if a.len() != b.len() {
        return false;
    }
    for i in 0..a.len() {
        if !same_index(a[i], b[i]) {
            return false;
        }
    }
    true
}

fn same_path(a: &Path, b: &Path) -> bool
    ensures { result ≡ true → a.now ≡ b.now }
{
    a.kind == b.kind && a.at == b.at && same_steps(&a.steps, &b.steps)
}

fn same_block(a: &Block, b: &Block) -> bool
    ensures { result ≡ true → a.now ≡ b.now }
{
    a.size == b.size && a.stop == b.stop && same_path(&a.path, &b.path)
}

/// Whether the operands are the same.
fn same_operand(a: &Operand, b: &Operand) -> bool
    ensures { result ≡ true → a.now ≡ b.now }
{
    match (a, b) {
        (Operand::Number(x), Operand::Number(y)) => *x == *y,
        (Operand::Cell(x), Operand::Cell(y)) => same_path(x, y),
        (Operand::Timer(x), Operand::Timer(y)) => same_path(x, y),
        (Operand::Counter(x), Operand::Counter(y)) => same_path(x, y),
        (Operand::Block(x), Operand::Block(y)) => same_block(x, y),
        (Operand::FlagOf(x), Operand::FlagOf(y)) => *x == *y,
        (Operand::Routine(x), Operand::Routine(y)) => *x == *y,
        (Operand::Label(x), Operand::Label(y)) => *x == *y,
        (Operand::Task(x), Operand::Task(y)) => *x == *y,
        (Operand::Blank, Operand::Blank) => true,
        _ => false,
    }
}

/// Whether the operands are the same, one by one.
fn same_operands(a: &[Operand], b: &[Operand]) -> bool
    ensures { result ≡ true → a.now ≡ b.now }
{
    if a.len() != b.len() {
        return false;
    }
    for i in 0..a.len() {
        if !same_operand(&a[i], &b[i]) {
            return false;
        }
    }
    true
}

/// Whether the instructions are the same.
pub(crate) fn same_ins(a: &Ins, b: &Ins) -> bool
    ensures { result ≡ true → a.now ≡ b.now }
{
    a.op == b.op && same_operands(a.args.as_slice(), b.args.as_slice())
}

/// The operands once more.
fn operands_again(alloc: Global, operands: &[Operand]) -> Result<Args, Memory>
    ensures { IfOk result (λ copy. copy ≡ operands.now) }
{
    if let [operand] = operands {
        return Ok(Args::one(operand.copied(alloc)?));
    }
    let mut list = Vec::with_capacity(alloc, operands.len())?;
    for operand in operands {
        list.push(operand.copied(alloc)?)?;
    }
    Ok(Args::of(list))
}

/// The instruction once more.
pub(crate) fn ins_again(alloc: Global, ins: &Ins) -> Result<Ins, Memory>
    ensures { IfOk result (λ copy. copy ≡ ins.now) }
{
    let args = operands_again(alloc, ins.args.as_slice())?;
    Ok(Ins { op: ins.op, args })
}

/// The piece of code once more.
fn code_again(code: &Code) -> Result<Code, Memory>
    ensures { IfOk result (λ copy. copy ≡ code.now) }
{
    match code {
        Code::RungStart => Ok(Code::RungStart),
        Code::Execute(ins) => {
            let copy = ins.copied()?;
            Ok(Code::Execute(copy))
        }
        Code::BranchStart { empty_leg } => Ok(Code::BranchStart {
            empty_leg: *empty_leg,
        }),
        Code::LegEnd => Ok(Code::LegEnd),
        Code::BranchEnd => Ok(Code::BranchEnd),
    }
}

/// Whether the pieces of code are the same.
pub(crate) fn same_code(a: &Code, b: &Code) -> bool
    ensures { result ≡ true → a.now ≡ b.now }
{
    match (a, b) {
        (Code::RungStart, Code::RungStart) => true,
        (Code::Execute(x), Code::Execute(y)) => x.is_same(y),
        (Code::BranchStart { empty_leg: x }, Code::BranchStart { empty_leg: y }) => *x == *y,
        (Code::LegEnd, Code::LegEnd) => true,
        (Code::BranchEnd, Code::BranchEnd) => true,
        _ => false,
    }
}

/// Whether the code is the same, piece by piece.
fn same_pieces(a: &[Code], b: &[Code]) -> bool
    ensures { result ≡ true → a.now ≡ b.now }
{
    if a.len() != b.len() {
        return false;
    }
    for i in 0..a.len() {
        if !same_code(&a[i], &b[i]) {
            return false;
        }
    }
    true
}

/// The code once more.
fn pieces_again(alloc: Global, code: &[Code]) -> Result<Vec<Code>, Memory>
    ensures { IfOk result (λ copy. copy.items ≡ code.now) }
{
    let mut list = Vec::with_capacity(alloc, code.len())?;
    append_pieces(&mut list, code)?;
    Ok(list)
}

/// Adds the code once more behind other code.
pub(crate) fn append_pieces(list: &mut Vec<Code>, code: &[Code]) -> Result<(), Memory>
    ensures { OnOk result (list.new.items ≡ list.old.items ++ code.now) }
{
    list.reserve(code.len())?;
    for piece in code {
        let copy = code_again(piece)?;
        list.push(copy)?;
    }
    Ok(())
}

/// The numbers once more.
pub(crate) fn numbers_again(alloc: Global, numbers: &[usize]) -> Result<Vec<usize>, Memory>
    ensures { IfOk result (λ copy. copy.items ≡ numbers.now) }
{
    let mut list = Vec::with_capacity(alloc, numbers.len())?;
    for number in numbers {
        list.push(*number)?;
    }
    Ok(list)
}

/// Whether the numbers are the same.
pub(crate) fn same_numbers(a: &[usize], b: &[usize]) -> bool
    ensures { result ≡ true → a.now ≡ b.now }
{
    if a.len() != b.len() {
        return false;
    }
    for i in 0..a.len() {
        if a[i] != b[i] {
            return false;
        }
    }
    true
}

impl FlatRoutine {
    /// The routine once more.
    pub fn copied(&self, alloc: Global) -> Result<FlatRoutine, Memory>
        ensures { IfOk result (λ copy. copy ≡ self.now) }
    {
        let code = pieces_again(alloc, self.code())?;
        let places = numbers_again(alloc, self.places())?;
        let quick = quick_list(alloc, &code)?;
        Ok(FlatRoutine::of(code, places, quick))
    }

    /// Whether the routines are the same.
    pub fn is_same(&self, other: &FlatRoutine) -> bool
        ensures { result ≡ true → self.now ≡ other.now }
    {
        same_pieces(self.code(), other.code()) && same_numbers(self.places(), other.places())
    }
}
