// The instructions that letters name.
ghost use Rattle.std.specs.Prelude.{◌≡◌, true};
ghost use Rattle.lgx_rung.specs.Mnemonics.{op_of, text_of};

use lgx_num::same;
use lgx_rung::Op;

/// The instructions whose mnemonics begin with a letter.
fn initial(letter: u8) -> &'static [Op] {
    match letter.to_ascii_uppercase() {
        b'A' => &[Op::Add, Op::And, Op::Abs, Op::Afi],
        b'C' => &[Op::Ctu, Op::Ctd, Op::Cop, Op::Cps, Op::Clr],
        b'D' => &[Op::Div],
        b'E' => &[Op::Equ, Op::Event],
        b'F' => &[Op::Fll],
        b'G' => &[Op::Grt, Op::Geq],
        b'J' => &[Op::Jsr, Op::Jmp],
        b'L' => &[Op::Les, Op::Leq, Op::Lim, Op::Lbl],
        b'M' => &[Op::Mov, Op::Mul, Op::Mod, Op::Meq, Op::Mvm, Op::Mcr],
        b'N' => &[Op::Neq, Op::Neg, Op::Not, Op::Nop],
        b'O' => &[Op::Ote, Op::Otl, Op::Otu, Op::Ons, Op::Osr, Op::Osf, Op::Or],
        b'R' => &[Op::Res, Op::Rto, Op::Ret],
        b'S' => &[Op::Sub, Op::Sbr],
        b'T' => &[Op::Ton, Op::Tof, Op::Tnd],
        b'U' => &[Op::Uid, Op::Uie],
        b'X' => &[Op::Xic, Op::Xio, Op::Xor],
        _ => &[],
    }
}

/// Whether the letters are the instruction's mnemonic, in upper case.
#[inline(always)]
fn is_text_of(op: Op, letters: &[u8]) -> bool
    ensures { result ≡ true → text_of op ≡ letters.now }
{
    match (op.text(), letters) {
        ([a, b, c], [x, y, z]) => a == x && b == y && c == z,
        (text, _) => text == letters,
    }
}

/// The instruction whose mnemonic these letters are, as [`Op::read`] gives it: those of the first letter are tried first, in upper case
/// and then in any.
#[tactic(auto, using(crate::proofs::OpsRead::named_op, crate::proofs::OpsRead::spelled_op))]
pub(crate) fn read_op(letters: &[u8]) -> Option<Op>
    ensures { result ≡ op_of letters.now }
{
    let [first, ..] = letters else {
        return None;
    };
    for op in initial(*first) {
        if is_text_of(*op, letters) {
            return Some(*op);
        }
    }
    for op in initial(*first) {
        if same(op.text(), letters) {
            return Some(*op);
        }
    }
    Op::read(letters)
}
