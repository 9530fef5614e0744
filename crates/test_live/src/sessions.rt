// A call, and what is said of it.
use crate::ends::{Heard, Sent, Talk};
use crate::given::{push_words, sent_of, set};
use cmd_live::live;
use lgx_answer::Status;
use lgx_io::{Gathered, MemFiles};
use lgx_live::Piped;
use std::alloc::Global;
use std::io::BufWriter;
use test_rows::{Texts, Told};

/// How many bytes of an answer are gathered.
const GATHERED_BYTES: usize = 8;

/// The numbers of the read, and of the write or flush, that fail; 0 if none does.
#[derive(Clone, Copy)]
pub(crate) struct Failing {
    pub read: u32,
    pub write: u32,
}

impl Failing {
    /// With the setting `write=N` the write or flush of this number fails, and with any other nothing does.
    fn of_setting(setting: &str) -> Failing {
        let (_, number) = setting.split_once("write=").unwrap_or(("", ""));
        Failing {
            read: 0,
            write: number.parse::<u32>().unwrap_or(0),
        }
    }
}

/// A call with these words, over these files, to which these bytes come in. Answers its status; what is said goes into `talk`.
pub(crate) fn hold(
    alloc: Global,
    words: &[String],
    files: &mut MemFiles,
    sent: &[u8],
    failing: Failing,
    talk: &Talk,
) -> Status {
    let reader = Sent::new(talk, sent, failing.read);
    let writer = Heard::new(talk, failing.write);
    match BufWriter::with_capacity(alloc, GATHERED_BYTES, writer) {
        Ok(writer) => {
            let mut console = Piped::new(reader, Gathered::over(writer));
            live(alloc, words, files, &mut console)
        }
        Err(_) => Status::Memory,
    }
}

/// Says `STATUS / TALK` of a session on the text `PROJECT`.
pub(crate) fn say_session(texts: &Texts, given: &str, told: &mut Told) {
    match sent_of(texts.alloc, given) {
        Ok(sent) => say_ended(texts, "PROJECT", "", &sent, told),
        Err(_) => told.lack(),
    }
}

/// Says `STATUS / TALK` of a call, `WORDS / SETTING`, to which the text `INPUT` comes in.
pub(crate) fn say_call(texts: &Texts, given: &str, told: &mut Told) {
    let (words, setting) = given.split_once(" / ").unwrap_or((given, ""));
    let sent = texts.get("INPUT").unwrap_or(b"");
    say_ended(texts, words, setting, sent, told);
}

fn say_ended(texts: &Texts, given: &str, setting: &str, sent: &[u8], told: &mut Told) {
    let mut words = Vec::new(texts.alloc);
    let mut files = Vec::new(texts.alloc);
    let mut failing = Vec::new(texts.alloc);
    let is_whole = push_words(texts, given, &mut words, &mut files).is_ok()
        && set(setting, &mut files, &mut failing).is_ok();
    if !is_whole {
        told.lack();
    }
    let mut files = MemFiles::new(texts.alloc, files, failing);
    let talk = Talk::new(texts.alloc);
    let failing = Failing::of_setting(setting);
    let status = hold(texts.alloc, &words, &mut files, sent, failing, &talk);
    told.shown(&status);
    told.word("/");
    told.text(&talk.into_text());
}
