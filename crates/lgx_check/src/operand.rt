// What an operand stands for.
ghost use Rattle.std.specs.Prelude.{◌^◌, ◌≡◌, ◌<◌, ◌&&◌, true, length, position};
ghost use Rattle.lgx_num.specs.Name.{same};
ghost use Rattle.spec_language.specs.declared.tag.Scope.TheVariants.{Program};
ghost use Rattle.spec_language.specs.Operands.{count_operand, data_operand, flag_as, found_as, name_operand, number_as};
ghost use Rattle.spec_language.specs.Resolution.{found};
ghost use Rattle.lgx_check.specs.Answers.{AnswersOperand};
ghost use Rattle.lgx_check.specs.Numbers.{number_of};

use crate::error::OperandError;
use crate::number::{Number, decimal, read_number};
use crate::place::{cause_of, flag, flag_as, found_operand, number_as};
use crate::scope::CheckScope;
use lgx_num::{Flag, Operand, is_name, same};
use lgx_rung::{CheckCode, OperandKind, as_count};
use lgx_tags::{Scope, TagError};
use spec_language::TaskName;
use std::alloc::Global;

/// The operand that a name stands for: C2 if the text is no name, the cause if nothing has the name.
#[inline(never)]
pub(crate) fn name_operand(
    text: &[u8],
    named: Option<Operand>,
    cause: CheckCode,
) -> Result<Operand, OperandError>
    ensures { AnswersOperand (name_operand text.now named cause) result }
{
    if !is_name(text) {
        return Err(OperandError::Code(CheckCode::C2));
    }
    match named {
        Some(operand) => Ok(operand),
        None => Err(OperandError::Code(cause)),
    }
}

/// A count of inputs: C2 if the text is no number that may be one.
#[inline(never)]
pub(crate) fn count_operand(text: &[u8]) -> Result<Operand, OperandError>
    ensures { AnswersOperand (count_operand text.now) result }
{
    let Some(number) = decimal(text) else {
        return Err(OperandError::Code(CheckCode::C2));
    };
    match as_count(number) {
        Some(count) => Ok(Operand::Number(count as i32)),
        None => Err(OperandError::Code(CheckCode::C2)),
    }
}

/// Whether it is an event task of the name, in any case.
fn is_event_task(task: &TaskName, text: &[u8]) -> bool
    ensures { result ≡ (task.now.event && same task.now.name text.now) }
{
    task.event && same(task.name.bytes(), text)
}

/// The number of the first event task of a name, in any case.
pub(crate) fn event_task(tasks: &[TaskName], text: &[u8]) -> Option<u32>
    requires { length tasks.now < 2 ^ 32 }
    ensures { result ≡ position (λ t. t.event && same t.name text.now) tasks.now }
{
    for (number, task) in tasks.iter().enumerate() {
        if is_event_task(task, text) {
            return Some(number as u32);
        }
    }
    None
}

/// A flag, a number, or what a text names as an operand of the kind.
#[inline(always)]
pub(crate) fn data_operand(
    alloc: Global,
    scope: &CheckScope,
    kind: OperandKind,
    text: &[u8],
) -> Result<Operand, OperandError>
    requires { scope.now.tags.now.sealed ≡ true }
    ensures { AnswersOperand (data_operand scope.now.tags.now.declarations (Program scope.now.program) kind text.now) result }
{
    if let Some(flag) = flag(text) {
        return flag_operand(kind, flag);
    }
    if let Some(number) = read_number(text) {
        return number_operand(kind, number);
    }
    if let Some(found) = scope
        .tags
        .resolve_alone(Scope::Program(scope.program), text)
    {
        return found_operand(scope.tags.types(), kind, found);
    }
    place_operand(alloc, scope, kind, text)
}

/// A flag as an operand of the kind.
#[inline(never)]
fn flag_operand(kind: OperandKind, flag: Flag) -> Result<Operand, OperandError>
    ensures { AnswersOperand (flag_as kind flag) result }
{
    Ok(flag_as(kind, flag)?)
}

/// A number as an operand of the kind.
#[inline(never)]
fn number_operand(kind: OperandKind, number: Number) -> Result<Operand, OperandError>
    ensures { AnswersOperand (number_as kind (number_of number)) result }
{
    Ok(number_as(kind, number)?)
}

/// What a text names as an operand of the kind.
#[inline(never)]
fn place_operand(
    alloc: Global,
    scope: &CheckScope,
    kind: OperandKind,
    text: &[u8],
) -> Result<Operand, OperandError>
    requires { scope.now.tags.now.sealed ≡ true }
    ensures { AnswersOperand (found_as scope.now.tags.now.declarations.types kind (found scope.now.tags.now.declarations (Program scope.now.program) text.now)) result }
{
    match scope
        .tags
        .resolve(alloc, Scope::Program(scope.program), text)
    {
        Ok(found) => found_operand(scope.tags.types(), kind, found),
        Err(TagError::Tag(code)) => Err(OperandError::Code(cause_of(code))),
        Err(TagError::Memory) => Err(OperandError::Memory),
    }
}
