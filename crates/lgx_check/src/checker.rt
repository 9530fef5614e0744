// The checker of one routine, and what an instruction's operands stand for.
ghost use Rattle.std.specs.Prelude.{◌^◌, ◌≡◌, ◌<◌, ◌≤◌, ◌++◌, ◌∷◌, [], Some, None, Result, length, filter_map, option_and_then, option_map, true, bytes_eq, codes, IfOk, OnOk};
ghost use Rattle.std.specs.Result.{result_ok, result_err};
ghost use Rattle.lgx_num.specs.declared.place.Operand.{Operand as AnyOperand};
ghost use Rattle.lgx_num.specs.declared.place.Operand.TheVariants as operand;
ghost use Rattle.lgx_rung.specs.declared.fault.CheckCode.{CheckCode as AnyCode};
ghost use Rattle.spec_base.specs.declared.limits.TheConstants.{MAX_ROUTINE_INSTRUCTIONS};
ghost use Rattle.spec_language.specs.Checked.{code_number, is_entry, label_name, label_of, least, lesser, operand_of, operands_of, other_faults, stands_elsewhere};
ghost use Rattle.spec_language.specs.Operands.{paired};
ghost use Rattle.lgx_check.specs.Answers.{AnswersArgs, AnswersCheck, AnswersOperand};
ghost use Rattle.lgx_check.specs.Checkers.{IsReady, check_of, checked_scope};
ghost use Rattle.lgx_check.specs.Judging.{lesser_of};
ghost use Rattle.lgx_check.specs.Labels.{elsewhere};
ghost use Rattle.lgx_check.specs.Pairs.{in_pairs};
ghost use Rattle.lgx_check.specs.Scopes.{scope_of};
ghost use Rattle.lgx_check.specs.Spots.{spot_of};

use crate::error::{CheckError, OperandError};
use crate::label::{LabelPlace, LabelTable};
use crate::name::{is_label, label_name};
use crate::number::second_number;
use crate::operand::{count_operand, data_operand, event_task, name_operand};
use crate::scope::CheckScope;
use crate::spot::Spot;
use lgx_num::{Memory, Name, Operand};
use lgx_rung::{Args, CheckCode, CheckFault, Ins, Op, OperandKind, Texts};
use lgx_types::NameIndex;
use spec_base::limits::MAX_ROUTINE_INSTRUCTIONS;
use std::alloc::Global;

/// What the instructions of a routine are checked against: the scope with an index of its routines, and the routine's
/// labels.
#[derive(Drop)]
pub(crate) struct Checker<'a> {
    pub(crate) alloc: Global,
    scope: &'a CheckScope<'a>,
    routines: NameIndex,
    pub(crate) labels: LabelTable,
}

/// What the first of several operands stand for, and the least code of those that stand for nothing.
#[derive(Drop)]
struct Judged {
    args: Vec<Operand>,
    code: Option<CheckCode>,
}

/// The number of a code.
fn code_number(code: CheckCode) -> u32
    ensures { result ≡ code_number code }
{
    match code {
        CheckCode::C1 => 1,
        CheckCode::C2 => 2,
        CheckCode::C3 => 3,
        CheckCode::C4 => 4,
        CheckCode::C5 => 5,
        CheckCode::C6 => 6,
        CheckCode::C7 => 7,
        CheckCode::C8 => 8,
        CheckCode::C9 => 9,
        CheckCode::C10 => 10,
        CheckCode::C11 => 11,
        CheckCode::C12 => 12,
        CheckCode::C13 => 13,
        CheckCode::C14 => 14,
        CheckCode::C15 => 15,
        CheckCode::C16 => 16,
        CheckCode::C17 => 17,
    }
}

/// The lesser of a code and another, if there is one.
fn lesser(code: CheckCode, other: Option<CheckCode>) -> CheckCode
    ensures { Some result ≡ lesser code other }
{
    match other {
        None => code,
        Some(other) => {
            if code_number(code) <= code_number(other) {
                code
            } else {
                other
            }
        }
    }
}

/// The lesser of two codes, if there is one.
fn lesser_of(code: Option<CheckCode>, other: Option<CheckCode>) -> Option<CheckCode>
    ensures { result ≡ lesser_of code other }
{
    match (code, other) {
        (None, _) => other,
        (Some(_), None) => code,
        (Some(a), Some(b)) => {
            if code_number(a) <= code_number(b) {
                code
            } else {
                other
            }
        }
    }
}

/// Whether an instruction is an SBR.
fn is_entry(op: Op) -> bool
    ensures { result ≡ is_entry op }
{
    matches!(op, Op::Sbr)
}

/// Whether a label that was found is elsewhere.
fn stands_elsewhere(spot: Spot, found: Option<LabelPlace>) -> bool
    ensures { result ≡ elsewhere (spot_of spot) found }
{
    match found {
        Some(first) => !(first.rung == spot.place.rung && first.ins == spot.place.ins),
        None => false,
    }
}

/// Whether a text is the question mark.
#[inline(always)]
fn is_question(text: &[u8]) -> bool
    ensures { result ≡ bytes_eq text.now (codes "?") }
{
    matches!(text, [b'?'])
}

/// An index of names.
fn index_of(alloc: Global, names: &[Name]) -> Result<NameIndex, Memory>
    requires { length names.now < 2 ^ 32 }
    ensures { IfOk result (λ index. index ≡ names.now) }
{
    let mut index = NameIndex::new(alloc);
    for name in names {
        index.push(name)?;
    }
    Ok(index)
}

impl Judged {
    /// Adds what the next operand stands for.
    #[tactic(auto, using(crate::proofs::Judging::added_args, crate::proofs::Judging::kept_code, crate::proofs::Judging::kept_args, crate::proofs::Judging::added_code))]
    #[inline(always)]
    fn add(&mut self, answer: Result<Operand, OperandError>) -> Result<(), Memory>
        ensures args { OnOk result ((meant : Result AnyOperand AnyCode) → AnswersOperand meant answer → self.new.args.items ≡ self.old.args.items ++ filter_map result_ok (meant ∷ [])) }
        ensures code { OnOk result ((meant : Result AnyOperand AnyCode) → AnswersOperand meant answer → self.new.code ≡ lesser_of self.old.code (least (filter_map result_err (meant ∷ [])))) }
    {
        match answer {
            Ok(operand) => {
                self.args.push(operand)?;
                Ok(())
            }
            Err(OperandError::Code(code)) => {
                self.code = lesser_of(self.code, Some(code));
                Ok(())
            }
            Err(OperandError::Memory) => Err(Memory),
        }
    }
}

impl<'a> Checker<'a> {
    /// A checker without labels.
    pub(crate) fn new(alloc: Global, scope: &'a CheckScope<'a>) -> Result<Checker<'a>, Memory>
        requires sealed { scope.now.tags.now.sealed ≡ true }
        requires few_routines { length scope.now.routines.now < 2 ^ 32 }
        requires few_tasks { length scope.now.tasks.now < 2 ^ 32 }
        ensures ready { IfOk result (λ c. IsReady c) }
        ensures scope { IfOk result (λ c. checked_scope c ≡ scope_of scope.now) }
        ensures labels { IfOk result (λ c. c.labels ≡ []) }
    {
        Ok(Checker {
            alloc,
            scope,
            routines: index_of(alloc, scope.routines)?,
            labels: LabelTable::new(alloc),
        })
    }

    /// The label of a name, in any case, as an operand.
    fn find_label(&self, text: &[u8]) -> Option<Operand>
        ensures { result ≡ option_map (λ l. operand.Label l.rung) (label_of self.now.labels text.now) }
    {
        match self.labels.find(text) {
            Some(place) => Some(Operand::Label(place.rung)),
            None => None,
        }
    }

    /// What an operand stands for where an operand of the kind is wanted. Most kinds are data.
    #[inline(always)]
    fn check_operand(
        &self,
        spot: Spot,
        kind: OperandKind,
        text: &[u8],
    ) -> Result<Operand, OperandError>
        requires { IsReady self.now }
        ensures { AnswersOperand (operand_of (checked_scope self.now) self.now.labels (spot_of spot) (kind, text.now)) result }
    {
        match kind {
            OperandKind::RoutineName
            | OperandKind::ParameterCount
            | OperandKind::JumpLabel
            | OperandKind::OwnLabel
            | OperandKind::EventTask => self.check_other(spot, kind, text),
            OperandKind::QuestionMark if is_question(text) => Ok(Operand::Blank),
            _ => data_operand(self.alloc, self.scope, kind, text),
        }
    }

    /// The same, of any kind.
    #[inline(never)]
    fn check_other(
        &self,
        spot: Spot,
        kind: OperandKind,
        text: &[u8],
    ) -> Result<Operand, OperandError>
        requires { IsReady self.now }
        ensures { AnswersOperand (operand_of (checked_scope self.now) self.now.labels (spot_of spot) (kind, text.now)) result }
    {
        match kind {
            OperandKind::RoutineName => {
                let routine = self
                    .routines
                    .find(text)
                    .map(|number| Operand::Routine(number));
                name_operand(text, routine, CheckCode::C11)
            }
            OperandKind::ParameterCount => count_operand(text),
            OperandKind::JumpLabel => name_operand(text, self.find_label(text), CheckCode::C12),
            OperandKind::OwnLabel => {
                let label = Some(Operand::Label(spot.place.rung));
                name_operand(text, label, CheckCode::C2)
            }
            OperandKind::EventTask => {
                let task = event_task(self.scope.tasks, text).map(|number| Operand::Task(number));
                name_operand(text, task, CheckCode::C15)
            }
            OperandKind::QuestionMark if is_question(text) => Ok(Operand::Blank),
            _ => data_operand(self.alloc, self.scope, kind, text),
        }
    }

    /// What a single operand of this kind stands for, or the least code: C1 if there is no operand or there are others.
    #[inline(always)]
    fn judge_one(&self, spot: Spot, kind: OperandKind, texts: &Texts) -> Result<Args, OperandError>
        requires { IsReady self.now }
        ensures { AnswersArgs (operands_of (checked_scope self.now) self.now.labels (spot_of spot) (in_pairs (kind ∷ []) texts.now)) result }
    {
        let mut operands = texts.operands();
        let Some(text) = operands.next() else {
            return Err(OperandError::Code(CheckCode::C1));
        };
        if !operands.is_empty() {
            return Err(OperandError::Code(CheckCode::C1));
        }
        match self.check_operand(spot, kind, text) {
            Ok(operand) => Ok(Args::one(operand)),
            Err(error) => Err(error),
        }
    }

    /// What operands of these kinds stand for, or the least code: C1 if there are fewer of them or more.
    #[inline(always)]
    fn judge_all(
        &self,
        spot: Spot,
        kinds: &[OperandKind],
        texts: &Texts,
    ) -> Result<Args, OperandError>
        requires { IsReady self.now }
        ensures { AnswersArgs (operands_of (checked_scope self.now) self.now.labels (spot_of spot) (in_pairs kinds.now texts.now)) result }
    {
        let mut judged = Judged {
            args: Vec::with_capacity(self.alloc, kinds.len())?,
            code: None,
        };
        let mut operands = texts.operands();
        for kind in kinds {
            let Some(text) = operands.next() else {
                return Err(OperandError::Code(CheckCode::C1));
            };
            let answer = self.check_operand(spot, *kind, text);
            judged.add(answer)?;
        }
        if !operands.is_empty() {
            return Err(OperandError::Code(CheckCode::C1));
        }
        let Judged { args, code } = judged;
        match code {
            None => Ok(Args::of(args)),
            Some(code) => Err(OperandError::Code(code)),
        }
    }

    /// What operands of these kinds stand for, or the least code: C1 if there are fewer of them or more.
    #[inline(always)]
    fn judge(&self, spot: Spot, kinds: &[OperandKind], texts: &Texts) -> Result<Args, OperandError>
        requires { IsReady self.now }
        ensures { AnswersArgs (operands_of (checked_scope self.now) self.now.labels (spot_of spot) (in_pairs kinds.now texts.now)) result }
    {
        match kinds {
            [kind] => self.judge_one(spot, *kind, texts),
            _ => self.judge_all(spot, kinds, texts),
        }
    }

    /// The same of the operands of a call, of an SBR or of a RET, whose number isn't fixed.
    #[inline(never)]
    fn judge_handed(&self, spot: Spot, op: Op, texts: &Texts) -> Result<Args, OperandError>
        requires { IsReady self.now }
        ensures { AnswersArgs (operands_of (checked_scope self.now) self.now.labels (spot_of spot) (paired op texts.now)) result }
    {
        match op.operand_kinds(second_number(texts), texts.len()) {
            Some(kinds) => self.judge(spot, kinds.as_slice(), texts),
            None => Err(OperandError::Code(CheckCode::C1)),
        }
    }

    /// What the operands of an instruction stand for, or the least code: C1 if their number isn't the mnemonic's.
    #[inline(always)]
    fn check_operands(&self, spot: Spot, op: Op, texts: &Texts) -> Result<Args, OperandError>
        requires { IsReady self.now }
        ensures { AnswersArgs (operands_of (checked_scope self.now) self.now.labels (spot_of spot) (paired op texts.now)) result }
    {
        match op.own_kinds() {
            Some(kinds) => self.judge(spot, kinds, texts),
            None => self.judge_handed(spot, op, texts),
        }
    }

    /// Whether an LBL's name is that of a label before it.
    fn repeats_label(&self, spot: Spot, op: Op, texts: &Texts) -> bool
        ensures { result ≡ stands_elsewhere (spot_of spot) (option_and_then (label_of self.now.labels) (label_name op texts.now)) }
    {
        match label_name(op, texts) {
            Some(name) => stands_elsewhere(spot, self.labels.find(name.bytes())),
            None => false,
        }
    }

    /// The least code of what is wrong beside the operands: C13, C14, C16, C17.
    #[tactic(auto, using(crate::proofs::Judging::first_of))]
    fn other_fault(&self, spot: Spot, op: Op, texts: &Texts) -> Option<CheckCode>
        requires { spot.place.before ≤ MAX_ROUTINE_INSTRUCTIONS }
        ensures least { result ≡ least (other_faults self.now.labels (spot_of spot) (record { op = op; texts = texts.now })) }
        ensures room { result ≡ None → spot.place.before < MAX_ROUTINE_INSTRUCTIONS }
    {
        if self.repeats_label(spot, op, texts) {
            Some(CheckCode::C13)
        } else if is_label(op) && !spot.leads {
            Some(CheckCode::C14)
        } else if spot.place.before as usize == MAX_ROUTINE_INSTRUCTIONS {
            Some(CheckCode::C16)
        } else if is_entry(op) && !(spot.place.rung == 0 && spot.leads) {
            Some(CheckCode::C17)
        } else {
            None
        }
    }

    /// An instruction with what its operands stand for, or the least code of what is wrong with it.
    #[inline(always)]
    pub(crate) fn check_instruction(
        &self,
        spot: Spot,
        op: Op,
        texts: &Texts,
    ) -> Result<Ins, CheckError>
        requires ready { IsReady self.now }
        requires room { spot.place.before ≤ MAX_ROUTINE_INSTRUCTIONS }
        ensures answer { AnswersCheck (check_of self.now (spot_of spot) (record { op = op; texts = texts.now })) result }
        ensures room { OnOk result (spot.place.before < MAX_ROUTINE_INSTRUCTIONS) }
    {
        let judged = self.check_operands(spot, op, texts);
        let other = self.other_fault(spot, op, texts);
        let code = match judged {
            Ok(args) => match other {
                None => return Ok(Ins { op, args }),
                Some(code) => code,
            },
            Err(OperandError::Code(code)) => lesser(code, other),
            Err(OperandError::Memory) => return Err(CheckError::Memory),
        };
        Err(CheckError::Check(CheckFault {
            code,
            rung: spot.place.rung,
            ins: spot.place.ins,
        }))
    }
}
