// The canonical text of a rung.
ghost use Rattle.std.specs.Prelude.{◌≡◌, ◌++◌, OnOk, IfOk};
ghost use Rattle.lgx_rung.specs.Text.{canon, canon_tokens, list_tokens};
ghost use Rattle.lgx_rung.specs.Tree.{end, one, fork_of};
ghost use Rattle.lgx_neutral.specs.Writing.{element_tokens, legs_tokens};

use lgx_num::Memory;
use lgx_rung::{Element, Legs, Op, SourceRung, Texts};
use std::alloc::Global;

/// The canonical text of a rung, without blanks: upper case for mnemonics, while operands keep their spelling.
pub fn write_rung(alloc: Global, rung: &SourceRung) -> Result<Vec<u8>, Memory>
    ensures { IfOk result (λ text. text.items ≡ canon rung.now) }
{
    let mut text = Vec::new(alloc);
    write_list(&mut text, rung)?;
    text.push(b';')?;
    Ok(text)
}

/// The elements of a rung or of a leg.
#[cycle(list)]
fn write_list(text: &mut Vec<u8>, rung: &SourceRung) -> Result<(), Memory>
    ensures { OnOk result (text.new.items ≡ text.old.items ++ canon_tokens (list_tokens rung.now)) }
{
    for element in rung.elements() {
        write_element(text, element)?;
    }
    Ok(())
}

/// An instruction or a fork.
#[cycle(list)]
fn write_element(text: &mut Vec<u8>, element: &Element) -> Result<(), Memory>
    ensures { OnOk result (text.new.items ≡ text.old.items ++ canon_tokens (element_tokens element.now)) }
{
    match element {
        Element::Ins(op, texts) => write_instruction(text, *op, texts),
        Element::Fork(legs) => write_fork(text, legs),
    }
}

/// Legs between brackets.
#[cycle(list)]
fn write_fork(text: &mut Vec<u8>, legs: &Legs) -> Result<(), Memory>
    ensures { OnOk result (text.new.items ≡ text.old.items ++ canon_tokens (list_tokens (fork_of legs.now end))) }
{
    text.push(b'[')?;
    write_legs(text, legs.as_slice())?;
    text.push(b']')?;
    Ok(())
}

/// Legs with commas between them.
#[cycle(list)]
fn write_legs(text: &mut Vec<u8>, legs: &[SourceRung]) -> Result<(), Memory>
    ensures { OnOk result (text.new.items ≡ text.old.items ++ canon_tokens (legs_tokens legs.now)) }
{
    let [first, others @ ..] = legs else {
        return Ok(());
    };
    write_list(text, first)?;
    for leg in others {
        text.push(b',')?;
        write_list(text, leg)?;
    }
    Ok(())
}

/// A mnemonic, and operands between parentheses.
fn write_instruction(text: &mut Vec<u8>, op: Op, texts: &Texts) -> Result<(), Memory>
    ensures { OnOk result (text.new.items ≡ text.old.items ++ canon_tokens (list_tokens (one (record { op = op; texts = texts.now }) end))) }
{
    text.extend_from_slice(op.text())?;
    text.push(b'(')?;
    text.extend_from_slice(texts.joined())?;
    text.push(b')')?;
    Ok(())
}
