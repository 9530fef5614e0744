// The lines of a text, and what all lines of journals and scripts may have.
ghost use Rattle.std.specs.Prelude.{◌≡◌, ◌<◌, ◌&&◌, [], ◌∷◌, false, length, IsNone, IfSome};
ghost use Rattle.spec_text.specs.TextLines.{lines, without_return, is_skipped, after_word};
ghost use Rattle.spec_text.specs.JournalText.{lane_of, is_end, is_line};
ghost use Rattle.spec_base.specs.Pieces.{has_byte};

use crate::words::{next_word, split_word, unsigned_of};
use lgx_num::split_first;
use spec_base::limits::MAX_LINE_BYTES;

/// A line without a carriage return at its end.
#[tactic(auto, using(crate::proofs::LineSplits::return_dropped, crate::proofs::LineSplits::return_missing, crate::proofs::LineSplits::empty_kept))]
fn without_return(line: &[u8]) -> &[u8]
    ensures { result.now ≡ without_return line.now }
{
    let len = line.len();
    if len == 0 {
        return line;
    }
    if line[len - 1] == b'\r' {
        let (start, _) = line.split_at(len - 1);
        return start;
    }
    line
}

/// The first line, without a line feed, and the text after it, if there is a line.
#[tactic(auto, using(crate::proofs::LineSplits::lines_split, crate::proofs::LineSplits::lines_last, crate::proofs::LineSplits::lines_none, crate::proofs::LineSplits::clean_without))]
pub fn next_line(text: &[u8]) -> Option<(&[u8], &[u8])>
    ensures some { IfSome result (λ r. lines text.now ≡ r.0.now ∷ lines r.1.now) }
    ensures clean { IfSome result (λ r. has_byte 10 r.0.now ≡ false) }
    ensures shorter { IfSome result (λ r. length r.1.now < length text.now) }
    ensures none { IsNone result → lines text.now ≡ [] }
{
    if let Some((line, after)) = split_first(text, b'\n') {
        return Some((without_return(line), after));
    }
    if text.is_empty() {
        return None;
    }
    Some(text.split_at(text.len()))
}

/// Whether a line is passed over: it is empty, or begins with `#`.
pub fn is_skipped(line: &[u8]) -> bool
    ensures { result ≡ is_skipped line.now }
{
    match line {
        [] => true,
        [first, ..] => *first == b'#',
    }
}

/// Whether a line is the word `end`.
#[tactic(auto, using(crate::proofs::LineSplits::end_alone, crate::proofs::LineSplits::end_not_more, crate::proofs::LineSplits::end_other, crate::proofs::LineSplits::end_not_none))]
fn is_end(line: &[u8]) -> bool
    ensures { result ≡ is_end line.now }
{
    let Some((word, after)) = next_word(line) else {
        return false;
    };
    word == b"end".as_slice() && next_word(after).is_none()
}

/// Whether a line ends a text: it is the word `end`, and isn't too long.
pub fn is_last(line: &[u8]) -> bool
    ensures { result ≡ (is_end line.now && is_line line.now) }
{
    line.len() <= MAX_LINE_BYTES && is_end(line)
}

/// The lane that a line names by its first word, if it names one, and what comes after that word.
pub(crate) fn split_lane(line: &[u8]) -> (Option<u32>, &[u8])
    ensures lane { result.0 ≡ lane_of line.now }
    ensures after { result.1.now ≡ after_word line.now }
{
    let (word, after) = split_word(line);
    match word {
        [b'@', digits @ ..] => (unsigned_of(digits), after),
        _ => (None, after),
    }
}
