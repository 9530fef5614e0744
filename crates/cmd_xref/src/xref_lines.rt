// The lines of a cross reference, one after another.
ghost use Rattle.std.specs.Prelude.{◌≡◌, ◌+◌, ◌^◌, ◌<◌, ◌≤◌, [], ◌∷◌, length, slice_get, Ok, Some, true, false, IfOk};
ghost use Rattle.std.specs.List.{concat};
ghost use Rattle.spec_language.specs.TagSpans.{spans_of};
ghost use Rattle.lgx_xref.specs.Indexes.{index_of};
ghost use Rattle.cmd_xref.specs.XrefText.{tag_lines, xref_text};
ghost use Rattle.cmd_xref.specs.XrefLeft.{lines_left};

use crate::lines::{name_line, uses_line};
use lgx_answer::Lines;
use lgx_edit::PlantParts;
use lgx_num::Memory;
use lgx_project::Project;
use lgx_xref::Xref;
use std::alloc::Global;
use std::marker::Model;

/// The lines of a project's cross reference: for each tag a line with its name, its writers, and its readers. Each line is made
/// when it is asked for.
///
/// Contracts see the lines that are left.
#[derive(Drop)]
pub struct XrefLines {
    project: Project,
    xref: Xref,
    /// The tag of the next line, and which of its lines that is, each counted from 0. Line 0 is the tag's name.
    tag: u32,
    at: usize,
}

impl Model for XrefLines {
    ghost use Rattle.std.specs.Prelude.{◌≡◌, ℕ, List};
    ghost use Rattle.lgx_xref.specs.Indexes.{index_of};
    ghost use Rattle.cmd_xref.specs.XrefLeft.{lines_left};

    ghost Value = { List (List ℕ) };

    ghost view = { λ l. lines_left l.project l.tag l.at };

    ghost invariant = { λ l. l.xref ≡ index_of l.project };
}

/// Makes line `at` of a tag, in place of what is in `line`; `false` if the tag has no more.
fn tag_line(
    project: &PlantParts,
    xref: &Xref,
    tag: u32,
    at: usize,
    line: &mut Vec<u8>,
) -> Result<bool, Memory>
    requires within { tag < length (spans_of project.now.tags) }
    requires indexed { xref.now ≡ index_of project.now }
    ensures more { result ≡ Ok true → slice_get (tag_lines project.now tag) at ≡ Some line.new.items }
    ensures none { result ≡ Ok false → length (tag_lines project.now tag) ≤ at }
    ensures room { result ≡ Ok true → at + 1 < 2 ^ 64 }
{
    if at == 0 {
        name_line(project, tag, line)?;
        return Ok(true);
    }
    let programs = project.texts.as_slice();
    uses_line(programs, xref.writers(tag), xref.readers(tag), at - 1, line)
}

/// Makes the next line of a project, in place of what is in `line`; `false` if there is none.
fn next_line(
    project: &PlantParts,
    xref: &Xref,
    tag: &mut u32,
    at: &mut usize,
    line: &mut Vec<u8>,
) -> Result<bool, Memory>
    requires { xref.now ≡ index_of project.now }
    ensures more { result ≡ Ok true → lines_left project.now tag.old at.old ≡ line.new.items ∷ lines_left project.now tag.new at.new }
    ensures none { result ≡ Ok false → lines_left project.now tag.old at.old ≡ [] }
{
    while *tag < project.tags.tag_count() {
        if tag_line(project, xref, *tag, *at, line)? {
            *at += 1;
            return Ok(true);
        }
        *tag += 1;
        *at = 0;
    }
    Ok(false)
}

impl XrefLines {
    /// All lines of a project.
    #[tactic(auto, using(crate::proofs::XrefLefts::all_left))]
    pub(crate) fn of(alloc: Global, project: Project) -> Result<XrefLines, Memory>
        ensures { IfOk result (λ lines. concat lines ≡ xref_text project) }
    {
        let xref = Xref::of(alloc, &project)?;
        Ok(XrefLines {
            project,
            xref,
            tag: 0,
            at: 0,
        })
    }
}

impl Lines for XrefLines {
    ghost rest = { λ l. concat l };

    ghost left = { λ l. length l };

    fn line(&mut self, line: &mut Vec<u8>) -> Result<bool, Memory> {
        next_line(
            self.project.parts(),
            &self.xref,
            &mut self.tag,
            &mut self.at,
            line,
        )
    }
}
