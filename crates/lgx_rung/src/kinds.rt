// The kinds of an instruction's operands, by how many are given.
ghost use Rattle.std.specs.Prelude.{◌≡◌, ◌≤◌, ◌+◌, ◌++◌, ◌∷◌, [], ◌==◌, if◌then◌else◌, ℕ, ℤ, Option, length, replicate, Some, None, IfSome, option_map};
ghost use Rattle.spec_base.specs.declared.limits.TheConstants.{MAX_OPERANDS, MAX_PARAMETERS};
ghost use Rattle.lgx_rung.specs.declared.op.Op.TheVariants.{Jsr};
ghost use Rattle.lgx_rung.specs.declared.operands.OperandKind.TheVariants.{RoutineName, ParameterCount};
ghost use Rattle.lgx_rung.specs.OperandTable.{as_count, handed_kinds, operand_kinds, parameters};

use crate::op::Op;
use crate::operands::OperandKind;
use arrayvec::ArrayVec;
use spec_base::limits::{MAX_OPERANDS, MAX_PARAMETERS};
use std::marker::Model;

/// The kinds of operands, in order, at most [`MAX_OPERANDS`]. It takes no memory.
#[derive(Debug, Drop)]
pub struct OperandKinds {
    list: ArrayVec<OperandKind, MAX_OPERANDS>,
}

impl Model for OperandKinds {
    ghost use Rattle.std.specs.Prelude.{List, ◌≤◌, length};
    ghost use Rattle.spec_base.specs.declared.limits.TheConstants.{MAX_OPERANDS};
    ghost use Rattle.lgx_rung.specs.declared.operands.OperandKind.{OperandKind};

    ghost Value = { List OperandKind };

    ghost view = { λ k. k.list.items };

    ghost invariant = { λ k. length k.list.items ≤ MAX_OPERANDS };
}

impl OperandKinds {
    /// These kinds.
    fn of(kinds: &[OperandKind]) -> OperandKinds
        requires { length kinds.now ≤ MAX_OPERANDS }
        ensures { result ≡ kinds.now }
    {
        let mut list = ArrayVec::new();
        for kind in kinds {
            list.push(*kind);
        }
        OperandKinds { list }
    }

    /// Adds `count` of a kind after the others.
    fn add(&mut self, kind: OperandKind, count: usize)
        requires { length self.old + count ≤ MAX_OPERANDS }
        ensures { self.new ≡ self.old ++ replicate count kind }
    {
        for _ in 0..count {
            self.list.push(kind);
        }
    }

    /// The kinds, in order.
    pub fn as_slice(&self) -> &[OperandKind]
        ensures value { result.now ≡ self.now }
        ensures room { length result.now ≤ MAX_OPERANDS }
    {
        self.list.as_slice()
    }
}

impl Op {
    /// The kinds of its operands, in order; none if it may have more of them or fewer: a JSR, an SBR or a RET.
    #[inline(always)]
    pub fn own_kinds(self) -> Option<&'static [OperandKind]>
        ensures { IfSome result (λ kinds. (second : Option ℤ) (given : ℕ) → operand_kinds self second given ≡ (if length kinds.now == given then Some kinds.now else None)) }
    {
        match self {
            Op::Jsr | Op::Sbr | Op::Ret => None,
            _ => Some(self.fixed_kinds()),
        }
    }

    /// The kinds of its operands if there are `given`, in order; none if it has more or fewer.
    ///
    /// `second` is the number that the second operand is, if it is one: of a JSR it is the count of the inputs. A JSR
    /// whose second operand is no such count may have up to 18 operands; that one is at fault then, whatever the others
    /// are.
    pub fn operand_kinds(self, second: Option<i32>, given: usize) -> Option<OperandKinds>
        ensures { result ≡ operand_kinds self second given }
    {
        match self {
            Op::Jsr => call_kinds(second, given),
            Op::Sbr => parameters(OperandKind::IntegerPlace, given),
            Op::Ret => parameters(OperandKind::IntegerOrNumber, given),
            _ => exactly(self.fixed_kinds(), given),
        }
    }
}

/// These kinds, if there are `given` of them.
fn exactly(kinds: &[OperandKind], given: usize) -> Option<OperandKinds>
    requires { length kinds.now ≤ MAX_OPERANDS }
    ensures { result ≡ (if length kinds.now == given then Some kinds.now else None) }
{
    if kinds.len() == given {
        Some(OperandKinds::of(kinds))
    } else {
        None
    }
}

/// `given` parameters of a kind.
fn parameters(kind: OperandKind, given: usize) -> Option<OperandKinds>
    ensures { result ≡ parameters kind given }
{
    if given > MAX_PARAMETERS {
        return None;
    }
    let mut kinds = OperandKinds::of(&[]);
    kinds.add(kind, given);
    Some(kinds)
}

/// The kinds of `given` operands of a JSR.
fn call_kinds(second: Option<i32>, given: usize) -> Option<OperandKinds>
    ensures { result ≡ operand_kinds Jsr second given }
{
    match given {
        0 => None,
        1 => Some(OperandKinds::of(&[OperandKind::RoutineName])),
        _ => match second.and_then(as_count) {
            Some(inputs) => counted_kinds(inputs, given - 2),
            None => uncounted_kinds(given - 2),
        },
    }
}

/// A routine and a count, as many inputs, and then returns.
fn counted_kinds(inputs: usize, given: usize) -> Option<OperandKinds>
    requires { inputs ≤ MAX_PARAMETERS }
    ensures { result ≡ option_map (λ kinds. RoutineName ∷ ParameterCount ∷ kinds) (handed_kinds (Some inputs) given) }
{
    let returns = given.checked_sub(inputs)?;
    if returns > MAX_PARAMETERS {
        return None;
    }
    let mut kinds = OperandKinds::of(&[OperandKind::RoutineName, OperandKind::ParameterCount]);
    kinds.add(OperandKind::IntegerOrNumber, inputs);
    kinds.add(OperandKind::IntegerPlace, returns);
    Some(kinds)
}

/// A routine and what is no count, and `given` others.
fn uncounted_kinds(given: usize) -> Option<OperandKinds>
    ensures { result ≡ option_map (λ kinds. RoutineName ∷ ParameterCount ∷ kinds) (handed_kinds None given) }
{
    if given > MAX_PARAMETERS + MAX_PARAMETERS {
        return None;
    }
    let mut kinds = OperandKinds::of(&[OperandKind::RoutineName, OperandKind::ParameterCount]);
    kinds.add(OperandKind::IntegerOrNumber, given);
    Some(kinds)
}

/// The number of inputs that a number gives, if a call may have as many.
pub fn as_count(number: i32) -> Option<usize>
    ensures { result ≡ as_count number }
{
    match usize::try_from(number) {
        Ok(count) if count <= MAX_PARAMETERS => Some(count),
        _ => None,
    }
}
