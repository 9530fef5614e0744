// The cross reference.
ghost use Rattle.std.specs.Prelude.{◌≡◌, ◌<◌, [], length, flat_map, map, slice_index_or, IfOk, OnOk};
ghost use Rattle.std.specs.List.{enumerate_from};
ghost use Rattle.lgx_edit.specs.Texts.{program_of};
ghost use Rattle.spec_language.specs.TagSpans.{spans_of};
ghost use Rattle.spec_uses.specs.Uses.{writes_tag, reads_tag, writers, readers};
ghost use Rattle.lgx_xref.specs.Apart.{AreApart, span_in};
ghost use Rattle.lgx_xref.specs.Gains.{Gains, program_uses};
ghost use Rattle.lgx_xref.specs.Indexes.{index_of};

use crate::note::{TagUses, no_uses, note_program};
use crate::placed::numbered;
use crate::spans::tag_spans;
use lgx_edit::{Plant, PlantParts, ProgramText};
use lgx_num::{Items, Memory};
use lgx_tags::TagSpan;
use spec_uses::Use;
use std::alloc::Global;
use std::marker::Model;

/// Instructions by their places, in order.
pub type Uses = Items<Use>;

/// The cross reference of a project: for each tag, in the order of the layout, the instructions that write it and those that
/// read it.
///
/// Contracts see the lists of uses.
pub struct Xref {
    writers: Vec<TagUses>,
    readers: Vec<TagUses>,
}

impl Drop for Xref {
    fn drop(self) {
        let Xref {
            writers: _,
            readers: _,
        } = self;
    }
}

impl Model for Xref {
    ghost use Rattle.lgx_xref.specs.Indexed.{Index};

    ghost Value = { Index };

    ghost view = { λ x. record { writers = x.writers.items; readers = x.readers.items } };
}

/// Notes the instructions of programs.
fn note_programs(
    alloc: Global,
    spans: &[TagSpan],
    programs: &[ProgramText],
    writers: &mut Vec<TagUses>,
    readers: &mut Vec<TagUses>,
) -> Result<(), Memory>
    requires apart { AreApart spans.now }
    requires writer_lists { length writers.old.items ≡ length spans.now }
    requires reader_lists { length readers.old.items ≡ length spans.now }
    ensures writers { OnOk result (Gains writers.old.items writers.new.items (λ k. flat_map (program_uses (writes_tag (span_in spans.now k))) (enumerate_from 0 (map program_of programs.now)))) }
    ensures readers { OnOk result (Gains readers.old.items readers.new.items (λ k. flat_map (program_uses (reads_tag (span_in spans.now k))) (enumerate_from 0 (map program_of programs.now)))) }
{
    for (i, program) in programs.iter().enumerate() {
        note_program(alloc, spans, numbered(i)?, program, writers, readers)?;
    }
    Ok(())
}

/// The cross reference of a project's parts.
fn indexed(alloc: Global, project: &PlantParts) -> Result<Xref, Memory>
    ensures { IfOk result (λ x. x ≡ index_of project.now) }
{
    let spans = tag_spans(alloc, &project.tags)?;
    let mut writers = no_uses(alloc, spans.len())?;
    let mut readers = no_uses(alloc, spans.len())?;
    note_programs(
        alloc,
        &spans,
        project.texts.as_slice(),
        &mut writers,
        &mut readers,
    )?;
    Ok(Xref { writers, readers })
}

impl Xref {
    /// The cross reference of a project. All instructions are walked once.
    pub fn of(alloc: Global, project: &Plant) -> Result<Xref, Memory>
        ensures { IfOk result (λ x. x ≡ index_of project.now) }
    {
        indexed(alloc, project.parts())
    }

    /// The instructions that write a tag.
    pub fn writers(&self, tag: u32) -> &[Use]
        requires { tag < length self.now.writers }
        ensures { result.now ≡ slice_index_or self.now.writers tag [] }
    {
        self.writers[tag as usize].as_slice()
    }

    /// The instructions that read a tag.
    pub fn readers(&self, tag: u32) -> &[Use]
        requires { tag < length self.now.readers }
        ensures { result.now ≡ slice_index_or self.now.readers tag [] }
    {
        self.readers[tag as usize].as_slice()
    }
}

/// A list of its own of these uses.
fn copied(alloc: Global, uses: &[Use]) -> Result<Uses, Memory>
    ensures { IfOk result (λ list. list ≡ uses.now) }
{
    let mut list = Vec::with_capacity(alloc, uses.len())?;
    list.extend_from_slice(uses)?;
    Ok(Items::of(list))
}

/// The instructions that may write a tag, in the order of programs, routines, rungs and instructions.
pub fn writers(alloc: Global, project: &Plant, tag: u32) -> Result<Uses, Memory>
    requires { tag < length (spans_of project.now.tags) }
    ensures { IfOk result (λ uses. uses ≡ writers project.now tag) }
{
    let xref = Xref::of(alloc, project)?;
    copied(alloc, xref.writers(tag))
}

/// The instructions that read a tag, in the same order.
pub fn readers(alloc: Global, project: &Plant, tag: u32) -> Result<Uses, Memory>
    requires { tag < length (spans_of project.now.tags) }
    ensures { IfOk result (λ uses. uses ≡ readers project.now tag) }
{
    let xref = Xref::of(alloc, project)?;
    copied(alloc, xref.readers(tag))
}
