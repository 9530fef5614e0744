// Places, numbers and flags where an operand of a kind is wanted.
ghost use Rattle.std.specs.Prelude.{◌≡◌};
ghost use Rattle.spec_language.specs.Layout.{single};
ghost use Rattle.spec_language.specs.OperandForm.{flag};
ghost use Rattle.spec_language.specs.Operands.{block_of, cause_of, flag_as, is_bool, is_counter, is_timer, no_place, number_as, path_of, place_as};
ghost use Rattle.lgx_types.specs.Tables.{HasSize};
ghost use Rattle.lgx_check.specs.Answers.{AnswersOperand};
ghost use Rattle.lgx_check.specs.Numbers.{number_of};
ghost use Rattle.lgx_check.specs.Taken.{is_taken, operand_as};

use crate::error::OperandError;
use crate::number::Number;
use lgx_num::{Block, Flag, Operand, Path};
use lgx_rung::{CheckCode, OperandKind};
use lgx_tags::data_type::{integer_bits, is_array, is_integer, kind_of, single};
use lgx_types::TypeTable;
use spec_language::{Base, DataType, Found, TagCode};

fn is_bool(base: Base) -> bool
    ensures { result ≡ is_bool base }
{
    matches!(base, Base::Bool)
}

fn is_timer(base: Base) -> bool
    ensures { result ≡ is_timer base }
{
    matches!(base, Base::Timer)
}

fn is_counter(base: Base) -> bool
    ensures { result ≡ is_counter base }
{
    matches!(base, Base::Counter)
}

/// The path to what was found.
fn path_of(found: Found) -> Path
    ensures { result ≡ path_of found }
{
    Path {
        kind: kind_of(found.of.base),
        at: found.at,
        steps: found.steps,
    }
}

/// What was found as a block, which counts by elements.
fn block_of(types: &TypeTable, found: Found) -> Block
    requires { HasSize types.now (single found.of.base) }
    ensures { result ≡ block_of types.now found }
{
    Block {
        size: types.size_of(single(found.of.base)),
        stop: found.stop,
        path: path_of(found),
    }
}

/// Whether what was found is of the kind, by its type.
#[inline(always)]
fn is_taken(kind: OperandKind, of: DataType) -> bool
    ensures { result ≡ is_taken kind of }
{
    match kind {
        OperandKind::BoolPlace | OperandKind::BoolOrFlag => is_bool(of.base) && !is_array(of),
        OperandKind::IntegerPlace | OperandKind::IntegerOrNumber => is_integer(of) && !is_array(of),
        OperandKind::WholeTimer => is_timer(of.base) && !is_array(of),
        OperandKind::WholeCounter => is_counter(of.base) && !is_array(of),
        OperandKind::TimerOrCounter => {
            (is_timer(of.base) || is_counter(of.base)) && !is_array(of)
        }
        OperandKind::CopySource | OperandKind::CopyTarget => !is_bool(of.base),
        OperandKind::FillTarget => integer_bits(of.base) > 0,
        OperandKind::QuestionMark
        | OperandKind::RoutineName
        | OperandKind::ParameterCount
        | OperandKind::JumpLabel
        | OperandKind::OwnLabel
        | OperandKind::EventTask => false,
    }
}

/// What was found as an operand of the kind, which takes it.
#[inline(always)]
fn operand_as(types: &TypeTable, kind: OperandKind, found: Found) -> Operand
    requires { HasSize types.now (single found.of.base) }
    ensures { result ≡ operand_as types.now kind found }
{
    match kind {
        OperandKind::WholeTimer => Operand::Timer(path_of(found)),
        OperandKind::WholeCounter => Operand::Counter(path_of(found)),
        OperandKind::TimerOrCounter if is_timer(found.of.base) => Operand::Timer(path_of(found)),
        OperandKind::TimerOrCounter => Operand::Counter(path_of(found)),
        OperandKind::CopySource | OperandKind::CopyTarget | OperandKind::FillTarget => {
            Operand::Block(block_of(types, found))
        }
        _ => Operand::Cell(path_of(found)),
    }
}

/// What was found as an operand of the kind: C2 if it isn't of that kind.
#[tactic(auto, using(crate::proofs::Taken::taken_as, crate::proofs::Taken::not_taken))]
#[inline(always)]
pub(crate) fn found_operand(
    types: &TypeTable,
    kind: OperandKind,
    found: Found,
) -> Result<Operand, OperandError>
    requires { HasSize types.now (single found.of.base) }
    ensures { AnswersOperand (place_as types.now kind found) result }
{
    if !is_taken(kind, found.of) {
        return Err(OperandError::Code(CheckCode::C2));
    }
    Ok(operand_as(types, kind, found))
}

/// The code of a number or a flag that isn't taken: C3 if a place is wanted that is written, or a BOOL or an integer.
fn no_place(kind: OperandKind) -> CheckCode
    ensures { result ≡ no_place kind }
{
    match kind {
        OperandKind::BoolPlace
        | OperandKind::IntegerPlace
        | OperandKind::CopyTarget
        | OperandKind::FillTarget => CheckCode::C3,
        _ => CheckCode::C2,
    }
}

/// A number as an operand of the kind: C10 if it is outside its range, C2 or C3 if none is taken.
pub(crate) fn number_as(kind: OperandKind, number: Number) -> Result<Operand, CheckCode>
    ensures { result ≡ number_as kind (number_of number) }
{
    match kind {
        OperandKind::IntegerOrNumber => match number {
            Number::Fitting(number) => Ok(Operand::Number(number)),
            Number::Outside => Err(CheckCode::C10),
        },
        _ => Err(no_place(kind)),
    }
}

/// A flag as an operand of the kind: C2 or C3 if none is taken.
pub(crate) fn flag_as(kind: OperandKind, flag: Flag) -> Result<Operand, CheckCode>
    ensures { result ≡ flag_as kind flag }
{
    match kind {
        OperandKind::BoolOrFlag => Ok(Operand::FlagOf(flag)),
        _ => Err(no_place(kind)),
    }
}

/// The flag that a text is.
#[inline(always)]
pub(crate) fn flag(text: &[u8]) -> Option<Flag>
    ensures { result ≡ flag text.now }
{
    match text {
        [b'S', b':', b'F', b'S'] => Some(Flag::First),
        [b'S', b':', b'V'] => Some(Flag::Overflow),
        [b'S', b':', b'Z'] => Some(Flag::Zero),
        [b'S', b':', b'N'] => Some(Flag::Negative),
        _ => None,
    }
}

/// The code of an operand that names nothing.
pub(crate) fn cause_of(code: TagCode) -> CheckCode
    ensures { result ≡ cause_of code }
{
    match code {
        TagCode::G3 => CheckCode::C4,
        TagCode::G4 => CheckCode::C5,
        TagCode::G5 => CheckCode::C6,
        TagCode::G6 => CheckCode::C7,
        TagCode::G9 => CheckCode::C8,
        _ => CheckCode::C9,
    }
}
