// The texts of edits, read.
ghost use Rattle.std.specs.Prelude.{◌≡◌, ◌≤◌, ℕ, length, map, IfOk, IsTrue};
ghost use Rattle.spec_base.specs.declared.limits.TheConstants.{MAX_EDITS};
ghost use Rattle.spec_machine.specs.EditText.{is_edit_text};
ghost use Rattle.spec_machine.specs.Edits.{read_or_cause, change_of, changes_of};
ghost use Rattle.lgx_edit.specs.Texts.{change_of as seen_change};
ghost use Rattle.lgx_edit.specs.Answering.{AnswersDraft, AnswersAs};
ghost use Rattle.lgx_edit.specs.Drafts.{change_kept, AreInRoutine};

use crate::changes::{KeptEdit, RungChange};
use crate::error::EditError;
use lgx_neutral::{RungError, read_rung};
use lgx_rung::SourceRung;
use spec_machine::{EditFault, RungEdit, Text};
use std::alloc::Global;

/// The rung that the text of edit `k` spells. E7 comes if it spells none.
fn read_text(alloc: Global, k: u32, text: &Text) -> Result<SourceRung, EditError>
    ensures { AnswersDraft (read_or_cause k text.now) result }
{
    match read_rung(alloc, text.bytes()) {
        Ok(rung) => Ok(rung),
        Err(RungError::Text(fault)) => Err(EditError::Edit(EditFault::E7(k, fault))),
        Err(RungError::Memory) => Err(EditError::Memory),
    }
}

/// What edit `k` does. E7 comes if its text spells no rung.
fn read_change(alloc: Global, k: u32, edit: &RungEdit) -> Result<RungChange, EditError>
    ensures { AnswersAs seen_change (change_of k edit.now) result }
{
    match edit {
        RungEdit::Replace(rung, text) => Ok(RungChange::Replace(*rung, read_text(alloc, k, text)?)),
        RungEdit::Insert(rung, text) => Ok(RungChange::Insert(*rung, read_text(alloc, k, text)?)),
        RungEdit::Delete(rung) => Ok(RungChange::Delete(*rung)),
    }
}

/// What these edits of a routine do. E7 comes at the first whose text spells no rung.
pub fn read_changes(
    alloc: Global,
    routine: u32,
    edits: &[RungEdit],
) -> Result<Vec<KeptEdit>, EditError>
    requires { length edits.now ≤ MAX_EDITS }
    ensures answer { AnswersAs (λ kept. map change_kept kept.items) (changes_of 0 edits.now) result }
    ensures routine { IfOk result (λ kept. AreInRoutine routine kept.items) }
    ensures count { IfOk result (λ kept. length kept.items ≡ length edits.now) }
{
    let mut kept = Vec::with_capacity(alloc, edits.len())?;
    for (k, edit) in edits.iter().enumerate() {
        let change = read_change(alloc, k as u32, edit)?;
        kept.push(KeptEdit { routine, change })?;
    }
    Ok(kept)
}
