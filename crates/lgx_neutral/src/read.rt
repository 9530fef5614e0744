// The reading of a rung's text.
ghost use Rattle.std.specs.Prelude.{◌≡◌, ◌≤◌, ℕ, ◌∷◌, Ok, Err, IfOk, IfSome, IsNone, IsTrue, OnOk, length};
ghost use Rattle.spec_base.specs.declared.limits.TheConstants.{MAX_FILE_BYTES};
ghost use Rattle.lgx_rung.specs.declared.fault.TextFault.{TextFault as Fault};
ghost use Rattle.lgx_rung.specs.Tree.{Source};
ghost use Rattle.std.specs.List.{list_all};
ghost use Rattle.lgx_rung.specs.Joined.{operands_in};
ghost use Rattle.lgx_rung.specs.Tokens.{Mnemonic, is_operand, read_rung as rung_read, read_tokens};
ghost use Rattle.lgx_rung.specs.Text.{Spells, IsTextCause};
ghost use Rattle.lgx_rung.proofs.Reading.{IsFit};
ghost use Rattle.lgx_neutral.specs.Answer.{AnswersRung, IfFault};
ghost use Rattle.lgx_neutral.specs.Instructions.{GoesOn, ReadsInstruction};
ghost use Rattle.lgx_neutral.specs.Lexing.{left, token_of, IsFitToken};
ghost use Rattle.lgx_neutral.specs.Reading.{reading, IsHeld};
ghost use Rattle.lgx_neutral.specs.declared.reader.Expected.TheVariants.{Element};

use crate::fault::{Refusal, RungError};
use crate::lexer::{Lexer, Token};
use crate::reader::Reader;
use lgx_rung::{Op, SourceRung};
use std::alloc::Global;

/// How many bytes an element has in most texts.
const BYTES_OF_ELEMENT: usize = 16;

/// The instruction that begins with a token in an element's place, if its operands follow without blanks. Elsewise nothing is read.
#[inline(always)]
fn whole_instruction<'a>(
    lexer: &mut Lexer<'a>,
    reader: &Reader,
    token: Token,
) -> Option<(Op, &'a [u8])>
    ensures mnemonic { IfSome result (λ r. token_of token.entry ≡ Mnemonic r.0) }
    ensures place { IfSome result (λ r. reader.now.place ≡ Element) }
    ensures reads { IfSome result (λ r. ReadsInstruction r.1.now (left lexer.old) (left lexer.new)) }
    ensures operands { IfSome result (λ r. IsTrue (list_all is_operand (operands_in r.1.now))) }
    ensures none { IsNone result → lexer.new ≡ lexer.old }
    ensures text { lexer.new.text.now ≡ lexer.old.text.now }
    ensures moves_on { lexer.old.at ≤ lexer.new.at }
{
    let Token::Mnemonic(op) = token else {
        return None;
    };
    if !reader.awaits_element() {
        return None;
    }
    let Some(operands) = lexer.operands() else {
        return None;
    };
    Some((op, operands))
}

/// Takes a token that was read. An instruction whose operands follow without blanks is taken with them.
#[inline(always)]
fn take(alloc: Global, lexer: &mut Lexer, reader: &mut Reader, token: Token) -> Result<(), Refusal>
    requires fit { IsFit (reading reader.old) }
    requires held { IsHeld reader.old.place reader.old.texts }
    requires operand { IsFitToken token }
    ensures goes_on { (len at : ℕ) → GoesOn (read_tokens len (record { at = at; token = token_of token.entry } ∷ left lexer.old) (reading reader.old)) at len (left lexer.new) (reading reader.new) result }
    ensures fit { OnOk result (IsFit (reading reader.new)) }
    ensures held { OnOk result (IsHeld reader.new.place reader.new.texts) }
    ensures text { lexer.new.text.now ≡ lexer.old.text.now }
    ensures moves_on { lexer.old.at ≤ lexer.new.at }
{
    if let Some((op, operands)) = whole_instruction(lexer, reader, token) {
        reader.take_instruction(alloc, op, operands)?;
        return Ok(());
    }
    reader.take(alloc, token)
}

/// The rung that a text spells, or its first fault.
///
/// Which fault is the first, and its place in bytes, is our own profile. Time grows with the number of bytes.
pub fn read_rung(alloc: Global, text: &[u8]) -> Result<SourceRung, RungError>
    requires { length text.now ≤ MAX_FILE_BYTES }
    ensures answer { AnswersRung (rung_read text.now) result }
    ensures rung { IfOk result (λ r. Spells text.now r) }
    ensures fault { IfFault result (λ f. IsTextCause text.now f) }
    ensures every_rung { (r : Source) → Spells text.now r → AnswersRung (Ok r) result }
    ensures every_fault { (f : Fault) → IsTextCause text.now f → AnswersRung (Err f) result }
{
    let mut lexer = Lexer::new(text);
    let mut reader = Reader::new(alloc, text.len() / BYTES_OF_ELEMENT + 1)?;
    while let Some(next) = lexer.next() {
        if let Err(refusal) = take(alloc, &mut lexer, &mut reader, next.token) {
            return Err(refusal.at(next.at as u32));
        }
    }
    reader.finish(text.len() as u32).map_err(RungError::Text)
}
