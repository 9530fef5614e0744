// Rungs that edits name: whether they are there, and whether an edit took them before.
ghost use Rattle.std.specs.Prelude.{◌≡◌, ◌≤◌, ◌||◌, length, map, nat_eq, filter_map, flat_map};
ghost use Rattle.std.specs.List.{list_any, position_from};
ghost use Rattle.spec_base.specs.declared.limits.TheConstants.{MAX_EDITS};
ghost use Rattle.spec_machine.specs.Edits.{is_misplaced, takes, taken_by, change_in, first_again};
ghost use Rattle.lgx_prog.specs.Search.{option_list};
ghost use Rattle.lgx_edit.specs.Texts.{change_of, accepted_of};

use crate::changes::{KeptEdit, RungChange};
use spec_machine::RungEdit;

/// Whether an edit names a rung that isn't there, where there are `rungs`.
fn is_misplaced(rungs: usize, edit: &RungEdit) -> bool
    ensures { result ≡ is_misplaced rungs edit.now }
{
    match edit {
        RungEdit::Replace(rung, _) => rungs <= *rung as usize,
        RungEdit::Insert(rung, _) => rungs < *rung as usize,
        RungEdit::Delete(rung) => rungs <= *rung as usize,
    }
}

/// The place of the first edit that names a rung that isn't there, where there are `rungs`.
pub fn first_misplaced(rungs: usize, edits: &[RungEdit]) -> Option<u32>
    requires { length edits.now ≤ MAX_EDITS }
    ensures { result ≡ position_from (is_misplaced rungs) 0 edits.now }
{
    for (k, edit) in edits.iter().enumerate() {
        if is_misplaced(rungs, edit) {
            return Some(k as u32);
        }
    }
    None
}

/// The rung that an edit replaces or deletes.
fn taken_rung(edit: &RungEdit) -> Option<u32>
    ensures { option_list result ≡ takes edit.now }
{
    match edit {
        RungEdit::Replace(rung, _) => Some(*rung),
        RungEdit::Insert(_, _) => None,
        RungEdit::Delete(rung) => Some(*rung),
    }
}

/// Whether an edit replaces or deletes this rung.
fn takes_rung(edit: &RungEdit, rung: u32) -> bool
    ensures { result ≡ list_any (nat_eq rung) (takes edit.now) }
{
    match edit {
        RungEdit::Replace(taken, _) => rung == *taken,
        RungEdit::Insert(_, _) => false,
        RungEdit::Delete(taken) => rung == *taken,
    }
}

/// Whether one of these edits replaces or deletes this rung.
fn take_rung(edits: &[RungEdit], rung: u32) -> bool
    ensures { result ≡ list_any (nat_eq rung) (flat_map takes edits.now) }
{
    for edit in edits {
        if takes_rung(edit, rung) {
            return true;
        }
    }
    false
}

/// Whether a change replaced or deleted this rung.
fn took_rung(change: &RungChange, rung: u32) -> bool
    ensures { result ≡ list_any (nat_eq rung) (taken_by (change_of change.now)) }
{
    match change {
        RungChange::Replace(taken, _) => rung == *taken,
        RungChange::Insert(_, _) => false,
        RungChange::Delete(taken) => rung == *taken,
    }
}

/// Whether an accepted edit of this routine replaced or deleted this rung.
fn is_taken(accepted: &[KeptEdit], routine: u32, rung: u32) -> bool
    ensures { result ≡ list_any (nat_eq rung) (flat_map taken_by (filter_map (change_in routine) (map accepted_of accepted.now))) }
{
    for kept in accepted {
        if kept.routine == routine && took_rung(&kept.change, rung) {
            return true;
        }
    }
    false
}

/// Whether an edit of this routine replaces or deletes a rung that an accepted edit or an earlier one did.
fn is_again(accepted: &[KeptEdit], routine: u32, earlier: &[RungEdit], edit: &RungEdit) -> bool
    ensures { result ≡ list_any (λ i. list_any (nat_eq i) (flat_map taken_by (filter_map (change_in routine) (map accepted_of accepted.now))) || list_any (nat_eq i) (flat_map takes earlier.now)) (takes edit.now) }
{
    match taken_rung(edit) {
        Some(rung) => is_taken(accepted, routine, rung) || take_rung(earlier, rung),
        None => false,
    }
}

/// The place of the first edit that replaces or deletes a rung of this routine that an accepted edit or an earlier one did.
pub fn first_again(accepted: &[KeptEdit], routine: u32, edits: &[RungEdit]) -> Option<u32>
    requires { length edits.now ≤ MAX_EDITS }
    ensures { result ≡ first_again 0 (flat_map taken_by (filter_map (change_in routine) (map accepted_of accepted.now))) edits.now }
{
    for (k, edit) in edits.iter().enumerate() {
        if is_again(accepted, routine, &edits[..k], edit) {
            return Some(k as u32);
        }
    }
    None
}
