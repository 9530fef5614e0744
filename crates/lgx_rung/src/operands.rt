// What each instruction is and takes.
ghost use Rattle.std.specs.Prelude.{◌≡◌, ◌≤◌, length};
ghost use Rattle.spec_base.specs.declared.limits.TheConstants.{MAX_BOUND_OPERANDS};
ghost use Rattle.lgx_rung.specs.OperandTable.{family_of, fixed_kinds};

use crate::op::Op;

/// The family of an instruction (1756-RM003): those of one family are executed by one function.
#[derive(Clone, Copy, PartialEq, Eq, Debug)]
pub enum Family {
    /// XIC to OSF, and AFI.
    Bit,
    Timer,
    Counter,
    Reset,
    /// Comparisons, LIM and MEQ.
    Comparison,
    /// Arithmetic, moves, and operations bit by bit: all that write the status flags.
    Arithmetic,
    /// COP, CPS and FLL.
    Copy,
    /// Calls, jumps, zones, regions and triggers, and what does nothing.
    ProgramControl,
}

/// What is in an operand's place.
#[derive(Clone, Copy, Default, PartialEq, Eq, Debug)]
pub enum OperandKind {
    /// A BOOL place.
    #[default]
    BoolPlace,
    /// A BOOL place or a status flag.
    BoolOrFlag,
    /// A SINT, INT or DINT place.
    IntegerPlace,
    /// A SINT, INT or DINT place, or a number.
    IntegerOrNumber,
    /// A whole TIMER.
    WholeTimer,
    /// A whole COUNTER.
    WholeCounter,
    /// A whole TIMER or COUNTER.
    TimerOrCounter,
    /// What is copied from: a place or a whole array, of any type but BOOL.
    CopySource,
    /// The same, copied to.
    CopyTarget,
    /// A place or a whole array of integers, that is filled.
    FillTarget,
    /// The text `?`.
    QuestionMark,
    /// The name of a routine of the program.
    RoutineName,
    /// The number of a call's inputs, from 0 to 8.
    ParameterCount,
    /// The name of a label of the routine.
    JumpLabel,
    /// The name of the label that is here.
    OwnLabel,
    /// The name of an event task.
    EventTask,
}

impl Op {
    /// The family of the instruction.
    pub fn family(self) -> Family
        ensures { result ≡ family_of self }
    {
        match self {
            Op::Xic
            | Op::Xio
            | Op::Ote
            | Op::Otl
            | Op::Otu
            | Op::Ons
            | Op::Osr
            | Op::Osf
            | Op::Afi => Family::Bit,
            Op::Ton | Op::Rto | Op::Tof => Family::Timer,
            Op::Ctu | Op::Ctd => Family::Counter,
            Op::Res => Family::Reset,
            Op::Equ | Op::Neq | Op::Les | Op::Leq | Op::Grt | Op::Geq | Op::Lim | Op::Meq =>
                Family::Comparison,
            Op::Add
            | Op::Sub
            | Op::Mul
            | Op::Div
            | Op::Mod
            | Op::Neg
            | Op::Abs
            | Op::Mov
            | Op::And
            | Op::Or
            | Op::Xor
            | Op::Not
            | Op::Mvm
            | Op::Clr => Family::Arithmetic,
            Op::Cop | Op::Cps | Op::Fll => Family::Copy,
            Op::Jsr
            | Op::Sbr
            | Op::Ret
            | Op::Tnd
            | Op::Jmp
            | Op::Lbl
            | Op::Mcr
            | Op::Nop
            | Op::Uid
            | Op::Uie
            | Op::Event => Family::ProgramControl,
        }
    }

    /// The kinds of the operands that it always has, in order. JSR, SBR and RET may have others after them.
    pub fn fixed_kinds(self) -> &'static [OperandKind]
        ensures kinds { result.now ≡ fixed_kinds self }
        ensures few { length result.now ≤ MAX_BOUND_OPERANDS }
    {
        match self {
            Op::Xic | Op::Xio => &[OperandKind::BoolOrFlag],
            Op::Ote | Op::Otl | Op::Otu | Op::Ons => &[OperandKind::BoolPlace],
            Op::Osr | Op::Osf => &[OperandKind::BoolPlace, OperandKind::BoolPlace],
            Op::Ton | Op::Rto | Op::Tof => &[
                OperandKind::WholeTimer,
                OperandKind::QuestionMark,
                OperandKind::QuestionMark,
            ],
            Op::Ctu | Op::Ctd => &[
                OperandKind::WholeCounter,
                OperandKind::QuestionMark,
                OperandKind::QuestionMark,
            ],
            Op::Res => &[OperandKind::TimerOrCounter],
            Op::Equ | Op::Neq | Op::Les | Op::Leq | Op::Grt | Op::Geq => &[
                OperandKind::IntegerOrNumber,
                OperandKind::IntegerOrNumber,
            ],
            Op::Lim | Op::Meq => &[
                OperandKind::IntegerOrNumber,
                OperandKind::IntegerOrNumber,
                OperandKind::IntegerOrNumber,
            ],
            Op::Add
            | Op::Sub
            | Op::Mul
            | Op::Div
            | Op::Mod
            | Op::And
            | Op::Or
            | Op::Xor
            | Op::Mvm => &[
                OperandKind::IntegerOrNumber,
                OperandKind::IntegerOrNumber,
                OperandKind::IntegerPlace,
            ],
            Op::Neg | Op::Abs | Op::Mov | Op::Not => &[
                OperandKind::IntegerOrNumber,
                OperandKind::IntegerPlace,
            ],
            Op::Clr => &[OperandKind::IntegerPlace],
            Op::Cop | Op::Cps => &[
                OperandKind::CopySource,
                OperandKind::CopyTarget,
                OperandKind::IntegerOrNumber,
            ],
            Op::Fll => &[
                OperandKind::IntegerOrNumber,
                OperandKind::FillTarget,
                OperandKind::IntegerOrNumber,
            ],
            Op::Jsr => &[OperandKind::RoutineName],
            Op::Sbr | Op::Ret | Op::Tnd | Op::Mcr | Op::Afi | Op::Nop | Op::Uid | Op::Uie => &[],
            Op::Jmp => &[OperandKind::JumpLabel],
            Op::Lbl => &[OperandKind::OwnLabel],
            Op::Event => &[OperandKind::EventTask],
        }
    }
}
