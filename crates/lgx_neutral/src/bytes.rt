// The kinds of byte of neutral text.
ghost use Rattle.std.specs.Prelude.{◌≡◌};
ghost use Rattle.lgx_rung.specs.Tokens.{is_blank, in_run};

/// A letter, of which mnemonics are made.
const LETTER: u8 = 1;

/// A byte that may be in an operand.
const OPERAND: u8 = 2;

/// A space, tab, CR or LF.
const BLANK: u8 = 4;

/// For each byte a digit, whose low three bits are the kinds above.
static KINDS: [u8; 256] = *b"\
    00000000044004000000000000000000\
    40020000000002202222222222200002\
    03333333333333333333333333320202\
    03333333333333333333333333300000\
    00000000000000000000000000000000\
    00000000000000000000000000000000\
    00000000000000000000000000000000\
    00000000000000000000000000000000";

/// Whether the byte is a space, tab, CR or LF.
#[inline(always)]
pub(crate) fn is_blank(byte: u8) -> bool
    ensures { result ≡ is_blank byte }
{
    KINDS[byte as usize] & BLANK != 0
}

/// Whether the byte goes on a run: of an operand's bytes inside parentheses, of letters outside.
#[inline(always)]
pub(crate) fn in_run(inside: bool, byte: u8) -> bool
    ensures { result ≡ in_run inside byte }
{
    let kind = if inside { OPERAND } else { LETTER };
    KINDS[byte as usize] & kind != 0
}
