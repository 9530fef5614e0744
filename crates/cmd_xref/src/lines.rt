// The lines of a tag.
ghost use Rattle.std.specs.Prelude.{◌≡◌, ◌+◌, ◌<◌, ◌≤◌, ◌++◌, map, length, slice_get, Ok, Some, true, false, OnOk};
ghost use Rattle.spec_language.specs.TagSpans.{spans_of};
ghost use Rattle.lgx_edit.specs.Texts.{program_of};
ghost use Rattle.spec_uses.specs.Uses.{span_at};
ghost use Rattle.cmd_xref.specs.XrefText.{scope_prefix, full_name, name_line, use_line, use_lines};

use crate::names::{program_name, routine_name};
use lgx_edit::{PlantParts, ProgramText};
use lgx_num::Memory;
use lgx_tags::Scope;
use lgx_watch::{push_count, push_word};
use spec_uses::Use;

/// Adds what is before the name of a tag of this scope.
fn push_scope(line: &mut Vec<u8>, programs: &[ProgramText], scope: Scope) -> Result<(), Memory>
    ensures { OnOk result (line.new.items ≡ line.old.items ++ scope_prefix (map program_of programs.now) scope) }
{
    if let Scope::Program(number) = scope {
        line.extend_from_slice(b"Program:")?;
        line.extend_from_slice(program_name(programs, number))?;
        line.push(b'.')?;
    }
    Ok(())
}

/// Adds a tag's name with its scope.
fn push_tag(line: &mut Vec<u8>, project: &PlantParts, tag: u32) -> Result<(), Memory>
    requires { tag < length (spans_of project.now.tags) }
    ensures { OnOk result (line.new.items ≡ line.old.items ++ full_name project.now tag) }
{
    if let Some(span) = project.tags.tag_at(tag) {
        push_scope(line, project.texts.as_slice(), span.scope)?;
    }
    line.extend_from_slice(project.tags.tag_name(tag))?;
    Ok(())
}

/// Makes the line of a tag's name, in place of what is in `line`.
pub(crate) fn name_line(project: &PlantParts, tag: u32, line: &mut Vec<u8>) -> Result<(), Memory>
    requires { tag < length (spans_of project.now.tags) }
    ensures { OnOk result (line.new.items ≡ name_line project.now tag) }
{
    line.clear();
    line.extend_from_slice(b"tag ")?;
    push_tag(line, project, tag)?;
    line.push(b'\n')?;
    Ok(())
}

/// Makes the line of a use, in place of what is in `line`.
fn use_line(
    programs: &[ProgramText],
    does: &[u8],
    at: Use,
    line: &mut Vec<u8>,
) -> Result<(), Memory>
    ensures { OnOk result (line.new.items ≡ use_line (map program_of programs.now) does.now at) }
{
    line.clear();
    line.extend_from_slice(b"  ")?;
    line.extend_from_slice(does)?;
    push_word(line, program_name(programs, at.program))?;
    push_word(line, routine_name(programs, at.program, at.routine))?;
    push_count(line, u64::from(at.rung))?;
    push_count(line, u64::from(at.ins))?;
    push_word(line, at.op.text())?;
    line.push(b'\n')?;
    Ok(())
}

/// Makes line `at` of a tag's uses, its writers before its readers, in place of what is in `line`; `false` if it has no more.
pub(crate) fn uses_line(
    programs: &[ProgramText],
    writers: &[Use],
    readers: &[Use],
    at: usize,
    line: &mut Vec<u8>,
) -> Result<bool, Memory>
    ensures more { result ≡ Ok true → slice_get (use_lines (map program_of programs.now) writers.now readers.now) at ≡ Some line.new.items }
    ensures none { result ≡ Ok false → length (use_lines (map program_of programs.now) writers.now readers.now) ≤ at }
    ensures room { result ≡ Ok true → at < length writers.now + length readers.now }
{
    if at < writers.len() {
        use_line(programs, b"write", writers[at], line)?;
        return Ok(true);
    }
    let past = at - writers.len();
    if past < readers.len() {
        use_line(programs, b"read", readers[past], line)?;
        return Ok(true);
    }
    Ok(false)
}
