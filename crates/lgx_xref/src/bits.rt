// The bits that an instruction writes, and those that it reads.
ghost use Rattle.std.specs.Prelude.{◌≡◌, ◌++◌, [], ◌∷◌, if◌then◌else◌, option_map, IfOk, OnOk};
ghost use Rattle.spec_scan.specs.Fits.{operand_at, number_told};
ghost use Rattle.spec_uses.specs.Written.{is_written, those_of, kinds_of, reads_written, path_told, first_bits, subscript_bits, bits_written, bits_read};
ghost use Rattle.lgx_xref.specs.Accesses.{is_chosen, step_bits};

use lgx_num::{Index, Memory, Operand, Path};
use lgx_rung::{Ins, Op, OperandKind};
use std::alloc::Global;

/// What an instruction does to an operand.
#[derive(Clone, Copy)]
pub(crate) enum Access {
    Write,
    Read,
}

/// Whether something is written where an operand of this kind is.
fn is_written(kind: OperandKind) -> bool
    ensures { result ≡ is_written kind }
{
    match kind {
        OperandKind::BoolPlace
        | OperandKind::IntegerPlace
        | OperandKind::WholeTimer
        | OperandKind::WholeCounter
        | OperandKind::TimerOrCounter
        | OperandKind::CopyTarget
        | OperandKind::FillTarget => true,
        _ => false,
    }
}

/// Whether an instruction reads what it writes.
fn reads_written(op: Op) -> bool
    ensures { result ≡ reads_written op }
{
    match op {
        Op::Ons | Op::Osr | Op::Osf | Op::Ton | Op::Rto | Op::Tof | Op::Ctu | Op::Ctd | Op::Mvm =>
            true,
        _ => false,
    }
}

/// Whether an instruction has this access to an operand of this kind.
fn is_chosen(access: Access, op: Op, kind: OperandKind) -> bool
    ensures { result ≡ is_chosen access op kind }
{
    match access {
        Access::Write => is_written(kind),
        Access::Read => reads_written(op) || !is_written(kind),
    }
}

/// The number that the second operand is, if it is one.
fn second_number(operands: &[Operand]) -> Option<i32>
    ensures { result ≡ number_told (operand_at operands.now 1) }
{
    match operands.get(1) {
        Some(Operand::Number(number)) => Some(*number),
        _ => None,
    }
}

/// The path of an operand that is a place or a block.
fn path_of(operand: &Operand) -> Option<&Path>
    ensures { option_map (λ path. path.now) result ≡ path_told operand.now }
{
    match operand {
        Operand::Cell(path) | Operand::Timer(path) | Operand::Counter(path) => Some(path),
        Operand::Block(block) => Some(&block.path),
        _ => None,
    }
}

/// Adds the first bit of an operand, if it has a path.
fn push_first(operand: &Operand, bits: &mut Vec<u32>) -> Result<(), Memory>
    ensures { OnOk result (bits.new.items ≡ bits.old.items ++ first_bits (operand.now ∷ [])) }
{
    if let Some(path) = path_of(operand) {
        bits.push(path.at)?;
    }
    Ok(())
}

/// Adds the first bit of an operand, if it is one of those that are wanted.
fn push_if(wanted: bool, operand: &Operand, bits: &mut Vec<u32>) -> Result<(), Memory>
    ensures { OnOk result (bits.new.items ≡ bits.old.items ++ (if wanted then first_bits (operand.now ∷ []) else [])) }
{
    if wanted {
        push_first(operand, bits)?;
    }
    Ok(())
}

/// Adds the first bit of each operand to which an instruction has this access.
fn push_chosen(
    access: Access,
    op: Op,
    kinds: &[OperandKind],
    operands: &[Operand],
    bits: &mut Vec<u32>,
) -> Result<(), Memory>
    ensures { OnOk result (bits.new.items ≡ bits.old.items ++ first_bits (those_of (is_chosen access op) kinds.now operands.now)) }
{
    for (i, kind) in kinds.iter().enumerate() {
        if i >= operands.len() {
            return Ok(());
        }
        push_if(is_chosen(access, op, *kind), &operands[i], bits)?;
    }
    Ok(())
}

/// Adds the bits of variable subscripts.
fn push_steps(steps: &[Index], bits: &mut Vec<u32>) -> Result<(), Memory>
    ensures { OnOk result (bits.new.items ≡ bits.old.items ++ step_bits steps.now) }
{
    for step in steps {
        bits.push(step.of.at)?;
    }
    Ok(())
}

/// Adds the bits of the variable subscripts of an operand.
fn push_subscripts(operand: &Operand, bits: &mut Vec<u32>) -> Result<(), Memory>
    ensures { OnOk result (bits.new.items ≡ bits.old.items ++ subscript_bits (operand.now ∷ [])) }
{
    match path_of(operand) {
        Some(path) => push_steps(path.steps.as_slice(), bits),
        None => Ok(()),
    }
}

/// The first bits of the operands to which an instruction has this access.
fn chosen_bits(alloc: Global, access: Access, ins: &Ins) -> Result<Vec<u32>, Memory>
    ensures { IfOk result (λ bits. bits.items ≡ first_bits (those_of (is_chosen access ins.now.op) (kinds_of ins.now) ins.now.args)) }
{
    let operands = ins.args.as_slice();
    let mut bits = Vec::new(alloc);
    if let Some(kinds) = ins
        .op
        .operand_kinds(second_number(operands), operands.len())
    {
        push_chosen(access, ins.op, kinds.as_slice(), operands, &mut bits)?;
    }
    Ok(bits)
}

/// The bits that an instruction writes: those with which its written operands begin.
pub(crate) fn bits_written(alloc: Global, ins: &Ins) -> Result<Vec<u32>, Memory>
    ensures { IfOk result (λ bits. bits.items ≡ bits_written ins.now) }
{
    chosen_bits(alloc, Access::Write, ins)
}

/// The bits that an instruction reads: those with which its read operands begin, and those of all variable subscripts.
pub(crate) fn bits_read(alloc: Global, ins: &Ins) -> Result<Vec<u32>, Memory>
    ensures { IfOk result (λ bits. bits.items ≡ bits_read ins.now) }
{
    let mut bits = chosen_bits(alloc, Access::Read, ins)?;
    for operand in ins.args.as_slice() {
        push_subscripts(operand, &mut bits)?;
    }
    Ok(bits)
}
