// The mnemonics.
ghost use Rattle.std.specs.Prelude.{◌≡◌, Some};
ghost use Rattle.lgx_rung.specs.declared.op.Op.{Op as AnyOp};
ghost use Rattle.lgx_rung.specs.Mnemonics.{op_of, text_of};

use lgx_num::same;

/// An instruction of the ladder language, by its mnemonic (1756-RM003, General Instructions).
#[derive(Clone, Copy, PartialEq, Eq, Debug)]
pub enum Op {
    Xic,
    Xio,
    Ote,
    Otl,
    Otu,
    Ons,
    Osr,
    Osf,
    Ton,
    Rto,
    Tof,
    Ctu,
    Ctd,
    Res,
    Equ,
    Neq,
    Les,
    Leq,
    Grt,
    Geq,
    Lim,
    Meq,
    Add,
    Sub,
    Mul,
    Div,
    Mod,
    Neg,
    Abs,
    Mov,
    And,
    Or,
    Xor,
    Not,
    Mvm,
    Clr,
    Cop,
    Cps,
    Fll,
    Jsr,
    Sbr,
    Ret,
    Tnd,
    Jmp,
    Lbl,
    Mcr,
    Afi,
    Nop,
    Uid,
    Uie,
    Event,
}

const MNEMONICS: [Op; 51] = [
    Op::Xic,
    Op::Xio,
    Op::Ote,
    Op::Otl,
    Op::Otu,
    Op::Ons,
    Op::Osr,
    Op::Osf,
    Op::Ton,
    Op::Rto,
    Op::Tof,
    Op::Ctu,
    Op::Ctd,
    Op::Res,
    Op::Equ,
    Op::Neq,
    Op::Les,
    Op::Leq,
    Op::Grt,
    Op::Geq,
    Op::Lim,
    Op::Meq,
    Op::Add,
    Op::Sub,
    Op::Mul,
    Op::Div,
    Op::Mod,
    Op::Neg,
    Op::Abs,
    Op::Mov,
    Op::And,
    Op::Or,
    Op::Xor,
    Op::Not,
    Op::Mvm,
    Op::Clr,
    Op::Cop,
    Op::Cps,
    Op::Fll,
    Op::Jsr,
    Op::Sbr,
    Op::Ret,
    Op::Tnd,
    Op::Jmp,
    Op::Lbl,
    Op::Mcr,
    Op::Afi,
    Op::Nop,
    Op::Uid,
    Op::Uie,
    Op::Event,
];

impl Op {
    /// The instruction whose mnemonic these letters are, in upper or lower case.
    pub fn read(letters: &[u8]) -> Option<Op>
        ensures { result ≡ op_of letters.now }
    {
        MNEMONICS
            .iter()
            .copied()
            .find(|op| same(op.text(), letters))
    }

    /// Its mnemonic, in upper case.
    pub fn text(self) -> &'static [u8]
        ensures { result.now ≡ text_of self }
    {
        match self {
            Op::Xic => b"XIC",
            Op::Xio => b"XIO",
            Op::Ote => b"OTE",
            Op::Otl => b"OTL",
            Op::Otu => b"OTU",
            Op::Ons => b"ONS",
            Op::Osr => b"OSR",
            Op::Osf => b"OSF",
            Op::Ton => b"TON",
            Op::Rto => b"RTO",
            Op::Tof => b"TOF",
            Op::Ctu => b"CTU",
            Op::Ctd => b"CTD",
            Op::Res => b"RES",
            Op::Equ => b"EQU",
            Op::Neq => b"NEQ",
            Op::Les => b"LES",
            Op::Leq => b"LEQ",
            Op::Grt => b"GRT",
            Op::Geq => b"GEQ",
            Op::Lim => b"LIM",
            Op::Meq => b"MEQ",
            Op::Add => b"ADD",
            Op::Sub => b"SUB",
            Op::Mul => b"MUL",
            Op::Div => b"DIV",
            Op::Mod => b"MOD",
            Op::Neg => b"NEG",
            Op::Abs => b"ABS",
            Op::Mov => b"MOV",
            Op::And => b"AND",
            Op::Or => b"OR",
            Op::Xor => b"XOR",
            Op::Not => b"NOT",
            Op::Mvm => b"MVM",
            Op::Clr => b"CLR",
            Op::Cop => b"COP",
            Op::Cps => b"CPS",
            Op::Fll => b"FLL",
            Op::Jsr => b"JSR",
            Op::Sbr => b"SBR",
            Op::Ret => b"RET",
            Op::Tnd => b"TND",
            Op::Jmp => b"JMP",
            Op::Lbl => b"LBL",
            Op::Mcr => b"MCR",
            Op::Afi => b"AFI",
            Op::Nop => b"NOP",
            Op::Uid => b"UID",
            Op::Uie => b"UIE",
            Op::Event => b"EVENT",
        }
    }
}

/// Reading an instruction's mnemonic gives it back, and no two instructions have the same.
pub fn mnemonics_are_read_back()
    ensures back { (op : AnyOp) → op_of (text_of op) ≡ Some op }
    ensures distinct { (a b : AnyOp) → text_of a ≡ text_of b → a ≡ b }
{}
