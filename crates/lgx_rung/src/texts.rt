// The operands of an instruction as they were written.
ghost use Rattle.std.specs.Prelude.{◌≡◌, ◌==◌, [], ◌∷◌, ◌++◌, length, IsTrue, IfOk, IfSome, MatchOption, OnOk, OnErr};
ghost use Rattle.std.specs.List.{list_all};
ghost use Rattle.lgx_rung.specs.Joined.{operands_in};
ghost use Rattle.lgx_rung.specs.Text.{canon_tokens, operands as operand_tokens};
ghost use Rattle.lgx_rung.specs.Tokens.{is_operand};

use lgx_num::{Memory, split_first};
use smallvec::SmallVec;
use std::alloc::Global;
use std::marker::Model;

/// How many bytes lie in the value itself: the operands of most instructions.
const BYTES_WITHIN: usize = 24;

/// Operand texts, each of one byte or more: letters, digits and `_ : . # - ? [ ]`.
///
/// They lie one after another with a comma between two, which is no byte of an operand. Short ones take no memory.
#[derive(Drop)]
pub struct Texts {
    joined: SmallVec<u8, BYTES_WITHIN>,
}

impl Model for Texts {
    ghost use Rattle.std.specs.Prelude.{ℕ, List, IsTrue};
    ghost use Rattle.std.specs.List.{list_all};
    ghost use Rattle.lgx_rung.specs.Joined.{operands_in};
    ghost use Rattle.lgx_rung.specs.Tokens.{is_operand};

    ghost Value = { List (List ℕ) };

    ghost view = { λ t. operands_in t.joined.items };

    ghost invariant = { λ t. IsTrue (list_all is_operand (operands_in t.joined.items)) };
}

impl Texts {
    /// No operands.
    pub fn new(alloc: Global) -> Self
        ensures { result ≡ [] }
    {
        Texts {
            joined: SmallVec::new(alloc),
        }
    }

    /// Operands as a rung's canonical text has them: with a comma between two.
    pub fn of_joined(alloc: Global, joined: &[u8]) -> Result<Texts, Memory>
        requires { IsTrue (list_all is_operand (operands_in joined.now)) }
        ensures { IfOk result (λ texts. texts ≡ operands_in joined.now) }
    {
        let joined = SmallVec::from_slice(alloc, joined)?;
        Ok(Texts { joined })
    }

    /// Adds an operand after the others.
    pub fn push(&mut self, text: &[u8]) -> Result<(), Memory>
        requires { IsTrue (is_operand text.now) }
        ensures added { OnOk result (self.new ≡ self.old ++ text.now ∷ []) }
        ensures unchanged { OnErr result (self.new ≡ self.old) }
    {
        self.joined.reserve(text.len() + 1)?;
        if !self.joined.is_empty() {
            self.joined.push_reserved(b',');
        }
        self.joined.extend_from_slice(text)?;
        Ok(())
    }

    /// Tells what the type keeps. It does nothing: a type's invariant is known of a value only once that is opened.
    pub(crate) fn tell(&self)
        ensures { IsTrue (list_all is_operand self.now) }
    {
        let _ = &self.joined;
    }

    /// The same operands again, in memory of their own.
    pub fn copied(&self, alloc: Global) -> Result<Texts, Memory>
        ensures { IfOk result (λ texts. texts ≡ self.now) }
    {
        let joined = SmallVec::from_slice(alloc, self.joined.as_slice())?;
        Ok(Texts { joined })
    }

    /// How many operands there are. They are counted.
    pub fn len(&self) -> usize
        ensures { result ≡ length self.now }
    {
        let bytes = self.joined.as_slice();
        if bytes.is_empty() {
            return 0;
        }
        let mut count = 1;
        for byte in bytes {
            if *byte == b',' {
                count += 1;
            }
        }
        count
    }

    /// The operands with a comma between two, as a rung's canonical text has them.
    #[tactic(auto, using(crate::proofs::Joined::joined_written))]
    pub fn joined(&self) -> &[u8]
        ensures texts { self.now ≡ operands_in result.now }
        ensures canonical { result.now ≡ canon_tokens (operand_tokens self.now) }
    {
        self.joined.as_slice()
    }

    /// The operands, to be gone through in order.
    pub fn operands(&self) -> Operands<'_>
        ensures { result ≡ self.now }
    {
        Operands {
            rest: self.joined.as_slice(),
        }
    }
}

/// The operands of an instruction that are left, from the first of them on.
#[derive(Drop)]
pub struct Operands<'a> {
    rest: &'a [u8],
}

impl<'a> Model for Operands<'a> {
    ghost use Rattle.std.specs.Prelude.{ℕ, List, IsTrue};
    ghost use Rattle.std.specs.List.{list_all};
    ghost use Rattle.lgx_rung.specs.Joined.{operands_in};
    ghost use Rattle.lgx_rung.specs.Tokens.{is_operand};

    ghost Value = { List (List ℕ) };

    ghost view = { λ o. operands_in o.rest.now };

    ghost invariant = { λ o. IsTrue (list_all is_operand (operands_in o.rest.now)) };
}

impl<'a> Operands<'a> {
    /// Whether no operand is left.
    pub fn is_empty(&self) -> bool
        ensures { result ≡ (length self.now == 0) }
    {
        self.rest.is_empty()
    }

    /// The next operand, or none if none is left.
    pub fn next(&mut self) -> Option<&'a [u8]>
        ensures operands { MatchOption result (self.old ≡ [] × self.new ≡ []) (λ text. self.old ≡ text.now ∷ self.new) }
        ensures operand { IfSome result (λ text. IsTrue (is_operand text.now)) }
    {
        if self.rest.is_empty() {
            return None;
        }
        let (text, rest) = match split_first(self.rest, b',') {
            Some(parts) => parts,
            None => (self.rest, b"".as_slice()),
        };
        self.rest = rest;
        Some(text)
    }
}
