// The tags to which the calls of each routine return values.
ghost use Rattle.std.specs.Prelude.{◌≡◌, ◌++◌, ◌∷◌, List, [], length, map, replicate, IfOk, OnOk};
ghost use Rattle.lgx_prog.specs.Search.{option_list};
ghost use Rattle.lgx_rung.specs.declared.ins.Ins.{Ins as Instruction};
ghost use Rattle.spec_scan.specs.Prescan.{called_by};
ghost use Rattle.lgx_xref.specs.Apart.{AreApart};
ghost use Rattle.lgx_xref.specs.Returns.{AreReturnsIn};

use crate::bits::bits_written;
use crate::placed::Placed;
use crate::tag_set::TagSet;
use lgx_num::{Memory, Operand};
use lgx_rung::{Ins, Op};
use lgx_tags::TagSpan;
use std::alloc::Global;

/// The routine that an instruction calls, by its number.
fn called(ins: &Ins) -> Option<u32>
    ensures { option_list result ≡ called_by ins.now.op ins.now.args }
{
    match (ins.op, ins.args.as_slice()) {
        (Op::Jsr, [Operand::Routine(number), ..]) => Some(*number),
        _ => None,
    }
}

/// `count` sets without a tag.
fn no_tags(alloc: Global, count: usize) -> Result<Vec<TagSet>, Memory>
    ensures { IfOk result (λ sets. sets.items ≡ replicate count []) }
{
    let mut sets = Vec::with_capacity(alloc, count)?;
    for _ in 0..count {
        sets.push(TagSet::new(alloc))?;
    }
    Ok(sets)
}

/// Adds the tags of a call's returns to those of its routine.
fn add_returns(
    alloc: Global,
    spans: &[TagSpan],
    ins: &Ins,
    returns: &mut Vec<TagSet>,
) -> Result<(), Memory>
    requires { AreApart spans.now }
    ensures same { OnOk result (length returns.new.items ≡ length returns.old.items) }
    ensures returns { OnOk result ((before : List Instruction) → AreReturnsIn spans.now before returns.old.items → AreReturnsIn spans.now (before ++ ins.now ∷ []) returns.new.items) }
{
    let Some(routine) = called(ins) else {
        return Ok(());
    };
    let routine = routine as usize;
    if routine >= returns.len() {
        return Ok(());
    }
    let bits = bits_written(alloc, ins)?;
    returns[routine].add_bits(spans, &bits)
}

/// For each of `routines` routines the tags to which its calls among these instructions return values.
pub(crate) fn returns_in(
    alloc: Global,
    spans: &[TagSpan],
    placed: &[Placed],
    routines: usize,
) -> Result<Vec<TagSet>, Memory>
    requires { AreApart spans.now }
    ensures same { IfOk result (λ returns. length returns.items ≡ routines) }
    ensures returns { IfOk result (λ returns. AreReturnsIn spans.now (map (λ s. s.ins) placed.now) returns.items) }
{
    let mut returns = no_tags(alloc, routines)?;
    for site in placed {
        add_returns(alloc, spans, site.ins(), &mut returns)?;
    }
    Ok(returns)
}
