// Noting instructions at the tags that they write and read.
ghost use Rattle.std.specs.Prelude.{◌≡◌, ◌<◌, ◌++◌, ◌∷◌, List, [], if◌then◌else◌, length, replicate, slice_set, nat_eq, IfOk, OnOk};
ghost use Rattle.std.specs.List.{AllByRecursion as Each, IsDistinct, list_any};
ghost use Rattle.lgx_edit.specs.Texts.{program_of};
ghost use Rattle.spec_language.specs.declared.span.TagSpan.{TagSpan};
ghost use Rattle.spec_machine.specs.Project.{ProgramText as Program};
ghost use Rattle.spec_uses.specs.Uses.{site_writes, with_returns, returns_to, program_instructions, writes_tag, reads_tag};
ghost use Rattle.spec_uses.specs.Written.{bits_read};
ghost use Rattle.lgx_xref.specs.Apart.{AreApart, span_in};
ghost use Rattle.lgx_xref.specs.TagSets.{AreTagsOf};
ghost use Rattle.lgx_xref.specs.Returns.{AreReturnsIn};
ghost use Rattle.lgx_xref.specs.Gains.{Gains, uses_at, uses_among, program_uses};

use crate::bits::{bits_read, bits_written};
use crate::placed::{Placed, placed_in};
use crate::returns::returns_in;
use crate::tag_set::TagSet;
use lgx_edit::ProgramText;
use lgx_num::Memory;
use lgx_rung::Op;
use lgx_tags::TagSpan;
use spec_uses::Use;
use std::alloc::Global;
use std::marker::Model;

/// The uses of a tag, in order. None takes no memory.
#[derive(Drop)]
pub(crate) struct TagUses {
    uses: Vec<Use>,
}

impl Model for TagUses {
    ghost use Rattle.std.specs.Prelude.{List};
    ghost use Rattle.spec_uses.specs.declared.uses.Use.{Use as Site};

    ghost Value = { List Site };

    ghost view = { λ t. t.uses.items };
}

impl TagUses {
    /// No use.
    fn new(alloc: Global) -> TagUses
        ensures { result ≡ [] }
    {
        TagUses {
            uses: Vec::new(alloc),
        }
    }

    /// Adds a use after the others.
    fn push(&mut self, at: Use) -> Result<(), Memory>
        ensures { OnOk result (self.new ≡ self.old ++ at ∷ []) }
    {
        self.uses.push(at)?;
        Ok(())
    }

    /// The uses.
    pub(crate) fn as_slice(&self) -> &[Use]
        ensures { result.now ≡ self.now }
    {
        &self.uses
    }
}

/// `count` tags without a use.
pub(crate) fn no_uses(alloc: Global, count: usize) -> Result<Vec<TagUses>, Memory>
    ensures { IfOk result (λ lists. lists.items ≡ replicate count []) }
{
    let mut lists = Vec::with_capacity(alloc, count)?;
    for _ in 0..count {
        lists.push(TagUses::new(alloc))?;
    }
    Ok(lists)
}

/// Adds a use to the list of a tag, if there is such a tag.
fn push_at(lists: &mut Vec<TagUses>, tag: usize, at: Use) -> Result<(), Memory>
    ensures { OnOk result (lists.new.items ≡ slice_set lists.old.items tag (uses_at lists.old.items tag ++ at ∷ [])) }
{
    if tag < lists.len() {
        return lists[tag].push(at);
    }
    Ok(())
}

/// Adds a use to the lists of these tags.
fn note(lists: &mut Vec<TagUses>, tags: &[usize], at: Use) -> Result<(), Memory>
    requires { IsDistinct nat_eq tags.now }
    ensures { OnOk result (Gains lists.old.items lists.new.items (λ k. if list_any (nat_eq k) tags.now then at ∷ [] else [])) }
{
    for tag in tags {
        push_at(lists, *tag, at)?;
    }
    Ok(())
}

/// The tags that an instruction writes beside its operands: those of a RET are its routine's returns.
fn tags_beside(alloc: Global, returns: &[TagSet], site: &Placed) -> Result<TagSet, Memory>
    requires { site.now.at.routine < length returns.now }
    ensures { IfOk result (λ tags. (spans : List TagSpan) (program : Program) → AreReturnsIn spans (program_instructions program) returns.now → AreTagsOf spans (with_returns site.now.ins.op (returns_to program site.now.at.routine)) tags) }
{
    match site.ins().op {
        Op::Ret => {
            let routine = site.at().routine as usize;
            returns[routine].copied(alloc)
        }
        _ => Ok(TagSet::new(alloc)),
    }
}

/// The tags that an instruction writes.
fn written_tags(
    alloc: Global,
    spans: &[TagSpan],
    returns: &[TagSet],
    site: &Placed,
) -> Result<TagSet, Memory>
    requires apart { AreApart spans.now }
    requires known { site.now.at.routine < length returns.now }
    ensures { IfOk result (λ tags. (program : Program) → AreReturnsIn spans.now (program_instructions program) returns.now → AreTagsOf spans.now (site_writes program site.now) tags) }
{
    let mut tags = tags_beside(alloc, returns, site)?;
    let bits = bits_written(alloc, site.ins())?;
    tags.add_bits(spans, &bits)?;
    Ok(tags)
}

/// The tags that an instruction reads.
fn read_tags(alloc: Global, spans: &[TagSpan], site: &Placed) -> Result<TagSet, Memory>
    requires { AreApart spans.now }
    ensures { IfOk result (λ tags. AreTagsOf spans.now (bits_read site.now.ins) tags) }
{
    let mut tags = TagSet::new(alloc);
    let bits = bits_read(alloc, site.ins())?;
    tags.add_bits(spans, &bits)?;
    Ok(tags)
}

/// Notes instructions at the tags that they write.
fn note_writers(
    alloc: Global,
    spans: &[TagSpan],
    returns: &[TagSet],
    placed: &[Placed],
    writers: &mut Vec<TagUses>,
) -> Result<(), Memory>
    requires apart { AreApart spans.now }
    requires known { Each (λ s. s.at.routine < length returns.now) placed.now }
    requires lists { length writers.old.items ≡ length spans.now }
    ensures { OnOk result ((program : Program) → AreReturnsIn spans.now (program_instructions program) returns.now → Gains writers.old.items writers.new.items (λ k. uses_among (writes_tag (span_in spans.now k) program) placed.now)) }
{
    for site in placed {
        let tags = written_tags(alloc, spans, returns, site)?;
        note(writers, tags.as_slice(), site.at())?;
    }
    Ok(())
}

/// Notes instructions at the tags that they read.
fn note_readers(
    alloc: Global,
    spans: &[TagSpan],
    placed: &[Placed],
    readers: &mut Vec<TagUses>,
) -> Result<(), Memory>
    requires apart { AreApart spans.now }
    requires lists { length readers.old.items ≡ length spans.now }
    ensures { OnOk result ((program : Program) → Gains readers.old.items readers.new.items (λ k. uses_among (reads_tag (span_in spans.now k) program) placed.now)) }
{
    for site in placed {
        let tags = read_tags(alloc, spans, site)?;
        note(readers, tags.as_slice(), site.at())?;
    }
    Ok(())
}

/// Notes the instructions of a program.
pub(crate) fn note_program(
    alloc: Global,
    spans: &[TagSpan],
    number: u32,
    program: &ProgramText,
    writers: &mut Vec<TagUses>,
    readers: &mut Vec<TagUses>,
) -> Result<(), Memory>
    requires apart { AreApart spans.now }
    requires writer_lists { length writers.old.items ≡ length spans.now }
    requires reader_lists { length readers.old.items ≡ length spans.now }
    ensures writers { OnOk result (Gains writers.old.items writers.new.items (λ k. program_uses (writes_tag (span_in spans.now k)) (number, program_of program.now))) }
    ensures readers { OnOk result (Gains readers.old.items readers.new.items (λ k. program_uses (reads_tag (span_in spans.now k)) (number, program_of program.now))) }
{
    let placed = placed_in(alloc, number, program)?;
    let sites = placed.as_slice();
    let returns = returns_in(alloc, spans, sites, program.routines.len())?;
    note_writers(alloc, spans, returns.as_slice(), sites, writers)?;
    note_readers(alloc, spans, sites, readers)?;
    Ok(())
}
