// Sessions that fail at each of their calls in turn.
use crate::ends::Talk;
use crate::given::{push_words, sent_of};
use crate::sessions::{Failing, hold};
use lgx_answer::Status;
use lgx_io::MemFiles;
use test_rows::{Row, Texts, Told, push_plain};

/// More calls than a row's session makes.
const MANY_CALLS: u32 = 100_000;

/// Which calls fail in turn.
#[derive(Clone, Copy)]
pub(crate) enum Side {
    Reads,
    Writes,
}

impl Side {
    /// The call of this number fails.
    fn failing_at(self, number: u32) -> Failing {
        match self {
            Side::Reads => Failing {
                read: number,
                write: 0,
            },
            Side::Writes => Failing {
                read: 0,
                write: number,
            },
        }
    }

    /// Whether a session that failed may end so, of which this was said. All was answered and written before a read, so there is a
    /// mark last.
    fn may_end(self, status: Status, said: &[u8]) -> bool {
        match self {
            Side::Reads => status == Status::ReadFault && said.ends_with(b"?"),
            Side::Writes => status == Status::WriteFault,
        }
    }
}

/// Says what is wanted, if each session that fails at a call says a first part of it, and the one that doesn't fail says all.
/// Else says the number of the call, the status, and what was said.
pub(crate) fn say_faults(texts: &Texts, row: &Row<'_>, side: Side, told: &mut Told) {
    let mut whole = Vec::new(texts.alloc);
    if push_plain(&mut whole, row.wanted).is_err() {
        told.lack();
    }
    match sent_of(texts.alloc, row.given) {
        Ok(sent) => say_all(texts, &sent, side, &whole, told),
        Err(_) => told.lack(),
    }
}

fn say_all(texts: &Texts, sent: &[u8], side: Side, whole: &[u8], told: &mut Told) {
    let mut words = Vec::new(texts.alloc);
    let mut files = Vec::new(texts.alloc);
    if push_words(texts, "PROJECT", &mut words, &mut files).is_err() {
        told.lack();
    }
    let mut files = MemFiles::new(texts.alloc, files, Vec::new(texts.alloc));
    for number in 1..MANY_CALLS {
        let talk = Talk::new(texts.alloc);
        let failing = side.failing_at(number);
        let status = hold(texts.alloc, &words, &mut files, sent, failing, &talk);
        let said = talk.into_text();
        if number > 1 && status == Status::Ok {
            return told.text(&said);
        }
        if !(whole.starts_with(&said) && side.may_end(status, &said)) {
            told.number(i64::from(number));
            told.shown(&status);
            return told.text(&said);
        }
    }
    told.malformed()
}
