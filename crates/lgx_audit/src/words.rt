// The words of a line of a trace.
ghost use Rattle.std.specs.Prelude.{◌≡◌, length};
ghost use Rattle.lgx_audit.specs.TraceReading.{number_of, named_of, number_after, mark_of, fault_of, verb_of, answer_of, ended_of};

use lgx_journal::unsigned_of;
use spec_schedule::{StepFault, TraceAnswer, TraceMark, Verb};

/// A number without needless zeros that fits a `u32`.
pub(crate) fn number_of(word: &[u8]) -> Option<u32>
    ensures { result ≡ number_of word.now }
{
    match word {
        [b'0', _, ..] => None,
        _ => unsigned_of(word),
    }
}

/// A number, or `-` for none.
pub(crate) fn named_of(word: &[u8]) -> Option<Option<u32>>
    ensures { result ≡ named_of word.now }
{
    if word == b"-".as_slice() {
        return Some(None);
    }
    let number = number_of(word)?;
    Some(Some(number))
}

/// The number after these bytes.
fn number_after(word: &[u8], front: &[u8]) -> Option<u32>
    ensures { result ≡ number_after (length front.now) front.now word.now }
{
    let digits = word.strip_prefix(front)?;
    number_of(digits)
}

/// What a step did.
pub(crate) fn mark_of(word: &[u8]) -> Option<TraceMark>
    ensures { result ≡ mark_of word.now }
{
    if word == b"-".as_slice() {
        return Some(TraceMark::Plain);
    }
    if word == b"up".as_slice() {
        return Some(TraceMark::Up);
    }
    if word == b"down".as_slice() {
        return Some(TraceMark::Down);
    }
    if word == b"copy".as_slice() {
        return Some(TraceMark::Copy);
    }
    if word == b"sync".as_slice() {
        return Some(TraceMark::Sync);
    }
    if word == b"copyend".as_slice() {
        return Some(TraceMark::CopyEnd);
    }
    if word == b"syncend".as_slice() {
        return Some(TraceMark::SyncEnd);
    }
    let task = number_after(word, b"trigger:")?;
    Some(TraceMark::Trigger(task))
}

/// The fault of a step.
pub(crate) fn fault_of(word: &[u8]) -> Option<StepFault>
    ensures { result ≡ fault_of word.now }
{
    if word == b"-".as_slice() {
        return Some(StepFault::Plain);
    }
    if word == b"minor".as_slice() {
        return Some(StepFault::Minor);
    }
    if word == b"major".as_slice() {
        return Some(StepFault::Major);
    }
    None
}

/// The kind of an action.
pub(crate) fn verb_of(word: &[u8]) -> Option<Verb>
    ensures { result ≡ verb_of word.now }
{
    if word == b"accept".as_slice() {
        return Some(Verb::Accept);
    }
    if word == b"test".as_slice() {
        return Some(Verb::Test);
    }
    if word == b"untest".as_slice() {
        return Some(Verb::Untest);
    }
    if word == b"assemble".as_slice() {
        return Some(Verb::Assemble);
    }
    if word == b"cancel".as_slice() {
        return Some(Verb::Cancel);
    }
    if word == b"run".as_slice() {
        return Some(Verb::Run);
    }
    if word == b"program".as_slice() {
        return Some(Verb::Program);
    }
    if word == b"clear".as_slice() {
        return Some(Verb::Clear);
    }
    if word == b"other".as_slice() {
        return Some(Verb::Other);
    }
    None
}

/// The answer to an action.
pub(crate) fn answer_of(word: &[u8]) -> Option<TraceAnswer>
    ensures { result ≡ answer_of word.now }
{
    if word == b"ok".as_slice() {
        return Some(TraceAnswer::Done);
    }
    if word == b"no".as_slice() {
        return Some(TraceAnswer::No);
    }
    let number = number_after(word, b"ok:")?;
    Some(TraceAnswer::Number(number))
}

/// Whether a program has left its last routine.
pub(crate) fn ended_of(word: &[u8]) -> Option<bool>
    ensures { result ≡ ended_of word.now }
{
    if word == b"ended".as_slice() {
        return Some(true);
    }
    if word == b"on".as_slice() {
        return Some(false);
    }
    None
}
