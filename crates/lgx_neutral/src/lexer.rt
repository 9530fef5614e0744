// The tokens of a text, from the first to the last.
ghost use Rattle.std.specs.Prelude.{◌≡◌, ◌+◌, ◌≤◌, ◌<◌, ◌∷◌, [], Bool, true, false, IsTrue, IfSome, IsNone, MatchOption, length, drop, reverse, slice_range, slice_index};
ghost use Rattle.std.specs.List.{list_all};
ghost use Rattle.spec_base.specs.declared.limits.TheConstants.{MAX_FILE_BYTES};
ghost use Rattle.lgx_neutral.specs.Instructions.{ReadsOperands};
ghost use Rattle.lgx_rung.specs.Joined.{operands_in};
ghost use Rattle.lgx_rung.specs.Tokens.{is_blank, is_operand, in_run as is_in_run, tokens_from, tokens, run_token, mark, inside_after};

use crate::bytes::{in_run, is_blank};
use crate::mnemonic::read_op;
use lgx_rung::Op;

/// A token of neutral text.
#[derive(Clone, Copy)]
pub(crate) enum Token<'a> {
    Mnemonic(Op),
    /// Letters that are no mnemonic.
    Letters,
    Operand(&'a [u8]),
    OpenFork,
    CloseFork,
    OpenParen,
    CloseParen,
    Comma,
    Semicolon,
    /// A byte that is none of these.
    Stray,
}

/// A token with the place of its first byte.
#[derive(Clone, Copy)]
pub(crate) struct Placed<'a> {
    pub(crate) at: usize,
    pub(crate) token: Token<'a>,
}

/// A text that is read up to a place, which is inside parentheses or outside.
#[derive(Drop)]
pub(crate) struct Lexer<'a> {
    text: &'a [u8],
    at: usize,
    inside: bool,
    ghost within: { at ≤ length text.now },
    ghost room: { length text.now ≤ MAX_FILE_BYTES },
}

impl<'a> Lexer<'a> {
    ghost use Rattle.lgx_neutral.specs.Instructions.{ReadsInstruction};
    ghost use Rattle.lgx_neutral.specs.Lexing.{placed, left, IsFitToken};

    /// The text from its start.
    pub(crate) fn new(text: &'a [u8]) -> Self
        requires { length text.now ≤ MAX_FILE_BYTES }
        ensures { left result ≡ tokens text.now }
    {
        Lexer {
            text,
            at: 0,
            inside: false,
        }
    }

    /// The next token, or none if only blanks are left.
    #[inline(always)]
    pub(crate) fn next(&mut self) -> Option<Placed<'a>>
        ensures tokens { MatchOption result (left self.old ≡ []) (λ t. left self.old ≡ placed t ∷ left self.new) }
        ensures operand { IfSome result (λ t. IsFitToken t.token) }
        ensures place { IfSome result (λ t. t.at < MAX_FILE_BYTES) }
        ensures text { self.new.text.now ≡ self.old.text.now }
        ensures moves_on { IfSome result (λ _. self.old.at < self.new.at) }
    {
        let at = after_blanks(self.text, self.at);
        if at == self.text.len() {
            return None;
        }
        let byte = self.text[at];
        if in_run(self.inside, byte) {
            let end = after_run(self.text, self.inside, at);
            let token = Token::of_run(self.inside, &self.text[at..end]);
            self.at = end;
            Some(Placed { at, token })
        } else {
            let token = Token::of_byte(byte);
            self.at = at + 1;
            self.inside = token.inside_after(self.inside);
            Some(Placed { at, token })
        }
    }

    /// The operands of an instruction whose mnemonic was read, if they come next: between parentheses, with a comma between two, and
    /// no blanks. Elsewise nothing is read.
    #[inline(always)]
    pub(crate) fn operands(&mut self) -> Option<&'a [u8]>
        ensures text { self.new.text.now ≡ self.old.text.now }
        ensures reads { IfSome result (λ operands. ReadsInstruction operands.now (left self.old) (left self.new)) }
        ensures operands { IfSome result (λ operands. IsTrue (list_all is_operand (operands_in operands.now))) }
        ensures moves_on { IfSome result (λ _. self.old.at < self.new.at) }
        ensures none { IsNone result → self.new ≡ self.old }
    {
        if self.inside {
            return None;
        }
        if self.at >= self.text.len() {
            return None;
        }
        if self.text[self.at] != b'(' {
            return None;
        }
        let from = self.at + 1;
        let Some(end) = list_end(self.text, from) else {
            return None;
        };
        self.at = end + 1;
        Some(&self.text[from..end])
    }
}

/// The place of the parenthesis that closes a list of operands, if from this place on there is one, with a comma between two operands
/// and no blanks.
#[inline(always)]
fn list_end(text: &[u8], from: usize) -> Option<usize>
    requires { from ≤ length text.now }
    ensures ahead { IfSome result (λ end. from ≤ end) }
    ensures within { IfSome result (λ end. end < length text.now) }
    ensures reads { IfSome result (λ end. ReadsOperands (slice_range text.now from end) (tokens_from (drop from text.now) true from []) (tokens_from (drop (end + 1) text.now) false (end + 1) [])) }
    ensures operands { IfSome result (λ end. IsTrue (list_all is_operand (operands_in (slice_range text.now from end)))) }
{
    if from < text.len() && text[from] == b')' {
        return Some(from);
    }
    let mut at = from;
    while at < text.len() {
        let end = after_run(text, true, at);
        if end == at || end == text.len() {
            return None;
        }
        if text[end] == b')' {
            return Some(end);
        }
        if text[end] != b',' {
            return None;
        }
        at = end + 1;
    }
    None
}

/// The first place, from this one on, at which there is no blank.
#[inline(always)]
fn after_blanks(text: &[u8], from: usize) -> usize
    requires { from ≤ length text.now }
    ensures ahead { from ≤ result }
    ensures within { result ≤ length text.now }
    ensures stops { result < length text.now → is_blank (slice_index text.now result) ≡ false }
    ensures tokens { (inside : Bool) → tokens_from (drop from text.now) inside from [] ≡ tokens_from (drop result text.now) inside result [] }
{
    let mut at = from;
    while at < text.len() && is_blank(text[at]) {
        at += 1;
    }
    at
}

/// The first place, from this one on, at which the run ends.
#[inline(always)]
fn after_run(text: &[u8], inside: bool, from: usize) -> usize
    requires { from ≤ length text.now }
    ensures ahead { from ≤ result }
    ensures within { result ≤ length text.now }
    ensures stops { result < length text.now → is_in_run inside (slice_index text.now result) ≡ false }
    ensures run { IsTrue (list_all (is_in_run inside) (slice_range text.now from result)) }
    ensures tokens { tokens_from (drop from text.now) inside from [] ≡ tokens_from (drop result text.now) inside result (reverse (slice_range text.now from result)) }
{
    let mut at = from;
    while at < text.len() && in_run(inside, text[at]) {
        at += 1;
    }
    at
}

impl<'a> Token<'a> {
    ghost use Rattle.lgx_neutral.specs.Lexing.{token_of, IsFitToken};

    /// The token of a run.
    #[inline(always)]
    fn of_run(inside: bool, run: &'a [u8]) -> Self
        requires some { 0 < length run.now }
        requires run { IsTrue (list_all (is_in_run inside) run.now) }
        ensures token { token_of result ≡ run_token inside run.now }
        ensures operand { IsFitToken result }
    {
        if inside {
            return Token::Operand(run);
        }
        match read_op(run) {
            Some(op) => Token::Mnemonic(op),
            None => Token::Letters,
        }
    }

    /// The token of a byte that is in no run.
    #[inline(always)]
    fn of_byte(byte: u8) -> Self
        ensures { token_of result ≡ mark byte }
    {
        match byte {
            b'[' => Token::OpenFork,
            b']' => Token::CloseFork,
            b'(' => Token::OpenParen,
            b')' => Token::CloseParen,
            b',' => Token::Comma,
            b';' => Token::Semicolon,
            _ => Token::Stray,
        }
    }

    /// Whether what follows it is inside parentheses.
    #[inline(always)]
    fn inside_after(self, inside: bool) -> bool
        ensures { result ≡ inside_after inside (token_of self.entry) }
    {
        match self {
            Token::OpenParen => true,
            Token::CloseParen => false,
            _ => inside,
        }
    }
}
