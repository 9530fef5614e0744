// Rungs as they were written compared, and routines copied and compared.
ghost use Rattle.std.specs.Prelude.{◌≡◌, true, IfOk};

use crate::shared::{SharedRung, SharedRungs, SharedText};
use lgx_num::{Items, Memory};
use lgx_rung::{Element, Legs, Op, SourceRung, Texts};
use std::alloc::Global;

/// Whether the texts are the same, in case too.
fn same_text(a: &[u8], b: &[u8]) -> bool
    ensures { result ≡ true → a.now ≡ b.now }
{
    a == b
}

/// Whether the mnemonics are the same.
fn same_op(a: Op, b: Op) -> bool
    ensures { result ≡ true → a ≡ b }
{
    a == b
}

/// Whether the operands are the same, as they were written.
fn same_texts(a: &Texts, b: &Texts) -> bool
    ensures { result ≡ true → a.now ≡ b.now }
{
    same_text(a.joined(), b.joined())
}

/// Whether two rungs or legs were written the same: mnemonics, operands as they are spelled, and forks.
///
/// It recurses as deep as forks nest, which is `MAX_FORKS` at most.
#[cycle(same)]
fn same_source(a: &SourceRung, b: &SourceRung) -> bool
    ensures { result ≡ true → a.now ≡ b.now }
{
    let ours = a.elements();
    let others = b.elements();
    if ours.len() != others.len() {
        return false;
    }
    for (number, element) in ours.iter().enumerate() {
        if !same_element(element, &others[number]) {
            return false;
        }
    }
    true
}

/// Whether two instructions or forks were written the same.
#[cycle(same)]
fn same_element(a: &Element, b: &Element) -> bool
    ensures { result ≡ true → a.now ≡ b.now }
{
    match (a, b) {
        (Element::Ins(op, texts), Element::Ins(other, others)) => {
            same_op(*op, *other) && same_texts(texts, others)
        }
        (Element::Fork(legs), Element::Fork(others)) => same_legs(legs, others),
        _ => false,
    }
}

/// Whether the legs of two forks were written the same.
#[cycle(same)]
fn same_legs(a: &Legs, b: &Legs) -> bool
    ensures { result ≡ true → a.now ≡ b.now }
{
    let ours = a.as_slice();
    let others = b.as_slice();
    if ours.len() != others.len() {
        return false;
    }
    for (number, leg) in ours.iter().enumerate() {
        if !same_source(leg, &others[number]) {
            return false;
        }
    }
    true
}

/// Whether two rungs were written the same: mnemonics, operands as they are spelled, and forks.
pub fn same_rung(a: &SourceRung, b: &SourceRung) -> bool
    ensures { result ≡ true → a.now ≡ b.now }
{
    same_source(a, b)
}

/// The rungs once more: one more owner of each.
fn rungs_again(alloc: Global, rungs: &[SharedRung]) -> Result<SharedRungs, Memory>
    ensures { IfOk result (λ copy. copy ≡ rungs.now) }
{
    let mut list = Vec::with_capacity(alloc, rungs.len())?;
    for rung in rungs {
        let copy = rung.again()?;
        list.push(copy)?;
    }
    Ok(Items::of(list))
}

/// Whether the rungs are the same, one by one.
fn same_rungs(a: &[SharedRung], b: &[SharedRung]) -> bool
    ensures { result ≡ true → a.now ≡ b.now }
{
    if a.len() != b.len() {
        return false;
    }
    for i in 0..a.len() {
        if !a[i].is_same(&b[i]) {
            return false;
        }
    }
    true
}

/// The routine once more, with the same rungs.
pub fn routine_again(alloc: Global, routine: &SharedText) -> Result<SharedText, Memory>
    ensures { IfOk result (λ copy. copy ≡ routine.now) }
{
    let rungs = rungs_again(alloc, routine.rungs.as_slice())?;
    Ok(SharedText {
        name: routine.name.copied(),
        rungs,
    })
}

/// Whether the routines are the same.
pub fn same_routine(a: &SharedText, b: &SharedText) -> bool
    ensures { result ≡ true → a.now ≡ b.now }
{
    a.name.is_spelled_as(&b.name) && same_rungs(a.rungs.as_slice(), b.rungs.as_slice())
}
