// The words of replies, with the causes of refusals.
ghost use Rattle.std.specs.Prelude.{◌≡◌, [], ◌∷◌, ◌++◌, codes, OnOk};
ghost use Rattle.std.specs.Fmt.{decimal};
ghost use Rattle.spec_text.specs.ReportText.{text_fault, check_fault, edit_cause, answer};
ghost use Rattle.lgx_watch.specs.Spaces.{after_spaces};

use crate::codes::{check_code, conn_cause, force_cause, mode_cause, text_code};
use crate::digits::{push_count, push_value, push_word};
use lgx_num::Memory;
use lgx_rung::{CheckFault, TextFault};
use spec_machine::{EditFault, Reply};

/// Adds the code and the place of a fault of a rung's text.
pub fn push_text_fault(text: &mut Vec<u8>, fault: TextFault) -> Result<(), Memory>
    ensures { OnOk result (text.new.items ≡ text.old.items ++ after_spaces (text_fault fault)) }
{
    push_word(text, text_code(fault.code))?;
    push_count(text, u64::from(fault.at))
}

/// Adds the code, the rung and the instruction of a fault of a check.
pub fn push_check_fault(text: &mut Vec<u8>, fault: CheckFault) -> Result<(), Memory>
    ensures { OnOk result (text.new.items ≡ text.old.items ++ after_spaces (check_fault fault)) }
{
    push_word(text, check_code(fault.code))?;
    push_count(text, fault.rung)?;
    push_count(text, u64::from(fault.ins))
}

/// Adds a code and a number.
fn push_numbered(text: &mut Vec<u8>, code: &[u8], number: u32) -> Result<(), Memory>
    ensures { OnOk result (text.new.items ≡ text.old.items ++ after_spaces (code.now ∷ decimal number ∷ [])) }
{
    push_word(text, code)?;
    push_count(text, u64::from(number))
}

/// Adds the cause for which an edit was refused.
fn push_edit_cause(text: &mut Vec<u8>, fault: EditFault) -> Result<(), Memory>
    ensures { OnOk result (text.new.items ≡ text.old.items ++ after_spaces (edit_cause fault)) }
{
    match fault {
        EditFault::E1 => push_word(text, b"E1"),
        EditFault::E2 => push_word(text, b"E2"),
        EditFault::E3(owner) => push_numbered(text, b"E3", owner),
        EditFault::E5(edit) => push_numbered(text, b"E5", edit),
        EditFault::E6(edit) => push_numbered(text, b"E6", edit),
        EditFault::E7(edit, inner) => {
            push_numbered(text, b"E7", edit)?;
            push_text_fault(text, inner)
        }
        EditFault::E8(inner) => {
            push_word(text, b"E8")?;
            push_check_fault(text, inner)
        }
        EditFault::E9 => push_word(text, b"E9"),
        EditFault::E10 => push_word(text, b"E10"),
        EditFault::E11 => push_word(text, b"E11"),
        EditFault::E12 => push_word(text, b"E12"),
    }
}

/// Adds `refused` and a code.
fn push_refused(text: &mut Vec<u8>, code: &[u8]) -> Result<(), Memory>
    ensures { OnOk result (text.new.items ≡ text.old.items ++ after_spaces (codes "refused" ∷ code.now ∷ [])) }
{
    push_word(text, b"refused")?;
    push_word(text, code)
}

/// Adds the words of a reply.
pub(crate) fn push_answer(text: &mut Vec<u8>, reply: Reply) -> Result<(), Memory>
    ensures { OnOk result (text.new.items ≡ text.old.items ++ after_spaces (answer reply)) }
{
    match reply {
        Reply::Done => push_word(text, b"ok"),
        Reply::Word(value) => {
            push_word(text, b"ok")?;
            push_value(text, value)
        }
        Reply::Version(number) => push_numbered(text, b"ok", number),
        Reply::Held => push_word(text, b"held"),
        Reply::Mode(fault) => push_refused(text, mode_cause(fault)),
        Reply::Conn(fault) => push_refused(text, conn_cause(fault)),
        Reply::Force(fault) => push_refused(text, force_cause(fault)),
        Reply::Edit(fault) => {
            push_word(text, b"refused")?;
            push_edit_cause(text, fault)
        }
    }
}
