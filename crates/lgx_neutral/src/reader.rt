// A rung that is read token by token.
ghost use Rattle.std.specs.Prelude.{◌≡◌, ◌<◌, ◌≤◌, ◌+◌, [], length, true, IsTrue, IfOk, OnOk};
ghost use Rattle.std.specs.List.{list_all};
ghost use Rattle.lgx_rung.specs.Joined.{operands_in};
ghost use Rattle.lgx_rung.specs.Tokens.{is_operand};
ghost use Rattle.lgx_rung.specs.Tokens as text;

use crate::fault::Refusal;
use crate::forks::Forks;
use crate::lexer::Token;
use lgx_num::Memory;
use lgx_rung::{Op, OpenFork, SourceRung, TextCode, TextFault, Texts};
use std::alloc::Global;
use std::mem;

/// How many elements a leg has room for at first: most have one.
const LEG_ROOM: usize = 1;

/// What may come next.
#[derive(Clone, Copy)]
pub(crate) enum Expected {
    /// An element, or the end of the leg or of the rung.
    Element,
    /// The parenthesis after a mnemonic.
    Named(Op),
    /// The first operand, or the closing parenthesis.
    First(Op),
    /// A comma or the closing parenthesis, after operands.
    After(Op),
    /// The operand after a comma.
    Next(Op),
    /// Nothing: the semicolon is read.
    End,
}

/// The rung as far as it is read: what may come next, the operands of the instruction that isn't closed yet, the open forks, and
/// the leg.
#[derive(Drop)]
pub(crate) struct Reader {
    place: Expected,
    texts: Texts,
    forks: Forks,
    leg: SourceRung,
}

impl Reader {
    ghost use Rattle.spec_base.specs.declared.limits.TheConstants.{MAX_FORKS};
    ghost use Rattle.lgx_rung.specs.Tree.{end, depth};
    ghost use Rattle.lgx_rung.proofs.Reading.{IsFit, AreFit};
    ghost use Rattle.lgx_neutral.specs.Lexing.{token_of, IsFitToken};
    ghost use Rattle.lgx_neutral.specs.Taking.{Takes};
    ghost use Rattle.lgx_neutral.specs.Reading.{reading, after, next, IsHeld};

    /// Nothing is read. There is room for `count` elements.
    pub(crate) fn new(alloc: Global, count: usize) -> Result<Self, Memory>
        ensures reads { IfOk result (λ r. reading r ≡ text.At text.Element [] end) }
        ensures held { IfOk result (λ r. IsHeld r.place r.texts) }
    {
        Ok(Reader {
            place: Expected::Element,
            texts: Texts::new(alloc),
            forks: Forks::new(alloc),
            leg: SourceRung::with_room(alloc, count)?,
        })
    }

    /// Whether an element may come next.
    #[inline(always)]
    pub(crate) fn awaits_element(&self) -> bool
        ensures { result ≡ true → self.now.place ≡ Expected.Element }
    {
        matches!(self.place, Expected::Element)
    }

    /// Takes an instruction with its operands.
    #[inline(always)]
    pub(crate) fn take_instruction(
        &mut self,
        alloc: Global,
        op: Op,
        operands: &[u8],
    ) -> Result<(), Memory>
        requires place { self.old.place ≡ Expected.Element }
        requires held { IsHeld self.old.place self.old.texts }
        requires operands { IsTrue (list_all is_operand (operands_in operands.now)) }
        ensures takes { OnOk result (reading self.new ≡ text.add_element self.old.forks self.old.leg (text.instruction op (operands_in operands.now))) }
        ensures held { OnOk result (IsHeld self.new.place self.new.texts) }
    {
        let texts = Texts::of_joined(alloc, operands)?;
        self.leg.push(op, texts)?;
        Ok(())
    }

    /// Takes the next token.
    #[inline(always)]
    pub(crate) fn take(&mut self, alloc: Global, token: Token) -> Result<(), Refusal>
        requires fit { IsFit (reading self.old) }
        requires held { IsHeld self.old.place self.old.texts }
        requires operand { IsFitToken token }
        ensures takes { Takes (text.read_token (reading self.old) (token_of token.entry)) (reading self.new) result }
        ensures held { OnOk result (IsHeld self.new.place self.new.texts) }
    {
        match self.place {
            Expected::Element => self.take_element(alloc, token),
            Expected::Named(op) => self.take_open(op, token),
            Expected::First(op) => self.take_first(alloc, op, token),
            Expected::After(op) => self.take_after(alloc, op, token),
            Expected::Next(op) => self.take_next(op, token),
            Expected::End => Err(Refusal::Text(TextCode::T1)),
        }
    }

    /// A token in an element's place.
    #[inline(always)]
    fn take_element(&mut self, alloc: Global, token: Token) -> Result<(), Refusal>
        requires place { self.old.place ≡ Expected.Element }
        requires none { self.old.texts ≡ [] }
        requires fit { length self.old.forks + depth self.old.leg ≤ MAX_FORKS }
        requires forks_fit { AreFit self.old.forks }
        ensures takes { Takes (text.read_element (token_of token.entry) self.old.forks self.old.leg) (reading self.new) result }
        ensures held { OnOk result (IsHeld self.new.place self.new.texts) }
    {
        match token {
            Token::Mnemonic(op) => {
                self.place = Expected::Named(op);
                Ok(())
            }
            Token::Letters => Err(Refusal::Text(TextCode::T2)),
            Token::OpenFork => self.open_fork(alloc),
            Token::CloseFork => self.close_fork(alloc),
            Token::Comma => self.next_leg(alloc),
            Token::Semicolon => self.end_rung(),
            _ => Err(Refusal::Text(TextCode::T1)),
        }
    }

    /// A bracket that opens a fork after the leg's elements.
    fn open_fork(&mut self, alloc: Global) -> Result<(), Refusal>
        requires { self.old.place ≡ Expected.Element }
        ensures takes { Takes (text.read_element text.OpenFork self.old.forks self.old.leg) (reading self.new) result }
        ensures place { self.new.place ≡ Expected.Element }
        ensures texts { self.new.texts ≡ self.old.texts }
    {
        if !self.forks.has_room() {
            return Err(Refusal::Text(TextCode::T5));
        }
        let before = mem::replace(&mut self.leg, SourceRung::with_room(alloc, LEG_ROOM)?);
        self.forks.push(OpenFork::new(alloc, before))?;
        Ok(())
    }

    /// A comma after a leg of the innermost fork.
    fn next_leg(&mut self, alloc: Global) -> Result<(), Refusal>
        requires { self.old.place ≡ Expected.Element }
        ensures takes { Takes (text.next_leg self.old.forks self.old.leg) (reading self.new) result }
        ensures place { self.new.place ≡ Expected.Element }
        ensures texts { self.new.texts ≡ self.old.texts }
    {
        let Some(mut fork) = self.forks.pop() else {
            return Err(Refusal::Text(TextCode::T1));
        };
        let next = SourceRung::with_room(alloc, LEG_ROOM)?;
        fork.next_leg(mem::replace(&mut self.leg, next))?;
        self.forks.push(fork)?;
        Ok(())
    }

    /// A bracket that closes the innermost fork.
    fn close_fork(&mut self, alloc: Global) -> Result<(), Refusal>
        requires place { self.old.place ≡ Expected.Element }
        requires fit { length self.old.forks + depth self.old.leg ≤ MAX_FORKS }
        requires forks_fit { AreFit self.old.forks }
        ensures takes { Takes (text.close_fork self.old.forks self.old.leg) (reading self.new) result }
        ensures place { self.new.place ≡ Expected.Element }
        ensures texts { self.new.texts ≡ self.old.texts }
    {
        let Some(fork) = self.forks.pop() else {
            return Err(Refusal::Text(TextCode::T1));
        };
        let last = mem::replace(&mut self.leg, SourceRung::new(alloc));
        self.leg = fork.close(last)?;
        Ok(())
    }

    /// The semicolon.
    fn end_rung(&mut self) -> Result<(), Refusal>
        ensures takes { Takes (text.end_rung self.old.forks self.old.leg) (reading self.new) result }
        ensures place { OnOk result (self.new.place ≡ Expected.End) }
        ensures texts { self.new.texts ≡ self.old.texts }
    {
        if !self.forks.is_empty() {
            return Err(Refusal::Text(TextCode::T1));
        }
        self.place = Expected::End;
        Ok(())
    }

    /// The parenthesis after a mnemonic.
    #[inline(always)]
    fn take_open(&mut self, op: Op, token: Token) -> Result<(), Refusal>
        requires none { self.old.texts ≡ [] }
        ensures takes { Takes (text.read_at (text.Named op) (token_of token.entry) self.old.forks self.old.leg) (reading self.new) result }
        ensures held { OnOk result (IsHeld self.new.place self.new.texts) }
    {
        match token {
            Token::OpenParen => {
                self.place = Expected::First(op);
                Ok(())
            }
            _ => Err(Refusal::Text(TextCode::T1)),
        }
    }

    /// The first operand, or the end of an instruction without operands.
    #[inline(always)]
    fn take_first(&mut self, alloc: Global, op: Op, token: Token) -> Result<(), Refusal>
        requires none { self.old.texts ≡ [] }
        requires operand { IsFitToken token }
        ensures takes { Takes (text.read_at (text.First op) (token_of token.entry) self.old.forks self.old.leg) (reading self.new) result }
        ensures held { OnOk result (IsHeld self.new.place self.new.texts) }
    {
        match token {
            Token::Operand(operand) => {
                self.texts.push(operand)?;
                self.place = Expected::After(op);
                Ok(())
            }
            Token::CloseParen => {
                self.leg.push(op, Texts::new(alloc))?;
                self.place = Expected::Element;
                Ok(())
            }
            _ => Err(Refusal::Text(TextCode::T1)),
        }
    }

    /// A comma, or the end of the instruction.
    #[inline(always)]
    fn take_after(&mut self, alloc: Global, op: Op, token: Token) -> Result<(), Refusal>
        requires some { 0 < length self.old.texts }
        ensures takes { Takes (text.read_at (after op self.old.texts) (token_of token.entry) self.old.forks self.old.leg) (reading self.new) result }
        ensures held { OnOk result (IsHeld self.new.place self.new.texts) }
    {
        match token {
            Token::Comma => {
                self.place = Expected::Next(op);
                Ok(())
            }
            Token::CloseParen => {
                let texts = mem::replace(&mut self.texts, Texts::new(alloc));
                self.leg.push(op, texts)?;
                self.place = Expected::Element;
                Ok(())
            }
            _ => Err(Refusal::Text(TextCode::T1)),
        }
    }

    /// The operand after a comma.
    #[inline(always)]
    fn take_next(&mut self, op: Op, token: Token) -> Result<(), Refusal>
        requires some { 0 < length self.old.texts }
        requires operand { IsFitToken token }
        ensures takes { Takes (text.read_at (next op self.old.texts) (token_of token.entry) self.old.forks self.old.leg) (reading self.new) result }
        ensures held { OnOk result (IsHeld self.new.place self.new.texts) }
    {
        let Token::Operand(operand) = token else {
            return Err(Refusal::Text(TextCode::T1));
        };
        self.texts.push(operand)?;
        self.place = Expected::After(op);
        Ok(())
    }

    /// The rung, if the text may end here, or the fault at its length.
    pub(crate) fn finish(self, len: u32) -> Result<SourceRung, TextFault>
        ensures { result ≡ text.read_end len (reading self) }
    {
        let Reader {
            place,
            forks,
            leg,
            ..
        } = self;
        let code = match place {
            Expected::End => return Ok(leg),
            Expected::Element if forks.is_empty() => TextCode::T4,
            _ => TextCode::T3,
        };
        Err(TextFault { code, at: len })
    }
}
