// Replies, as rows give them.
use crate::words::{number_at, value_at, word_at};
use lgx_rung::{CheckCode, CheckFault, TextCode, TextFault};
use lgx_watch::{ConnFault, EditFault, ForceFault, ModeFault, Reply};

/// The reply of `TICK STEP LANE WORD NUMBERS`; none, if the word is none of those that rows have.
pub(crate) fn reply_of(given: &str) -> Option<Reply> {
    match word_at(given, 3) {
        "done" => Some(Reply::Done),
        "word" => Some(Reply::Word(value_at(given, 4))),
        "version" => Some(Reply::Version(number_at(given, 4))),
        "held" => Some(Reply::Held),
        "M2" => Some(Reply::Mode(ModeFault::M2)),
        "N3" => Some(Reply::Conn(ConnFault::N3)),
        "F1" => Some(Reply::Force(ForceFault::F1)),
        code => Some(Reply::Edit(edit_fault_of(code, given)?)),
    }
}

fn edit_fault_of(code: &str, given: &str) -> Option<EditFault> {
    let number = number_at(given, 4);
    match code {
        "E1" => Some(EditFault::E1),
        "E3" => Some(EditFault::E3(number)),
        "E5" => Some(EditFault::E5(number)),
        "E6" => Some(EditFault::E6(number)),
        "E7" => Some(EditFault::E7(number, text_fault_of(given)?)),
        "E8" => Some(EditFault::E8(check_fault_of(given)?)),
        "E12" => Some(EditFault::E12),
        _ => None,
    }
}

fn text_fault_of(given: &str) -> Option<TextFault> {
    let at = number_at(given, 6);
    (word_at(given, 5) == "T2").then_some(TextFault {
        code: TextCode::T2,
        at,
    })
}

fn check_fault_of(given: &str) -> Option<CheckFault> {
    let rung = u64::from(number_at(given, 5));
    let ins = number_at(given, 6);
    (word_at(given, 4) == "C12").then_some(CheckFault {
        code: CheckCode::C12,
        rung,
        ins,
    })
}
