// Lines of processor steps and of ticks in their short form: the word, a space, one to nine digits and a line feed.
ghost use Rattle.std.specs.Prelude.{◌≡◌, ◌<◌, ◌∷◌, ◌++◌, length, codes, IfSome};
ghost use Rattle.lgx_journal.specs.Counts.{counted_event, IsCount, IsFirstLine};
ghost use Rattle.lgx_journal.specs.Written.{event_run};

/// What a line counts: processor steps, or ticks.
#[derive(Clone, Copy)]
pub(crate) enum Counted {
    Steps,
    Ticks,
}

/// The most digits of a count in its short form.
const MOST_DIGITS: usize = 9;

/// The count that the digits before the first line feed are, if it isn't 0, and the text after the line feed.
#[inline(always)]
fn count_line(text: &[u8]) -> Option<(u32, &[u8])>
    ensures { IfSome result (λ r. IsCount text.now r.1.now r.0) }
{
    let mut count = 0u32;
    for (i, byte) in text.iter().enumerate() {
        if *byte == b'\n' {
            if count == 0 {
                return None;
            }
            let (_, after) = text.split_at(i + 1);
            return Some((count, after));
        }
        if i == MOST_DIGITS {
            return None;
        }
        if !byte.is_ascii_digit() {
            return None;
        }
        count = count * 10 + u32::from(*byte - b'0');
    }
    None
}

/// The bytes of `cpu `, as a number.
const CPU: u32 = 0x2075_7063;

/// The bytes of `tick`.
const TICK: u32 = 0x6b63_6974;

/// What comes after `cpu ` where a text begins with it.
#[inline(always)]
fn after_cpu(text: &[u8]) -> Option<&[u8]>
    ensures { IfSome result (λ r. text.now ≡ codes "cpu " ++ r.now) }
{
    match text {
        [a, b, c, d, digits @ ..] if u32::from_le_bytes([*a, *b, *c, *d]) == CPU => Some(digits),
        _ => None,
    }
}

/// What comes after `tick ` where a text begins with it.
#[inline(always)]
fn after_tick(text: &[u8]) -> Option<&[u8]>
    ensures { IfSome result (λ r. text.now ≡ codes "tick " ++ r.now) }
{
    match text {
        [a, b, c, d, b' ', digits @ ..] if u32::from_le_bytes([*a, *b, *c, *d]) == TICK => {
            Some(digits)
        }
        _ => None,
    }
}

/// The bytes of `1` and a line feed.
const ONE: u16 = 0x0a31;

/// What comes after the line `cpu 1` where a text begins with it.
#[inline(always)]
fn after_one_step(text: &[u8]) -> Option<&[u8]>
    ensures { IfSome result (λ r. text.now ≡ codes "cpu 1" ++ 10 ∷ r.now) }
{
    match text {
        [a, b, c, d, e, f, after @ ..]
            if u32::from_le_bytes([*a, *b, *c, *d]) == CPU && u16::from_le_bytes([*e, *f]) == ONE =>
            { Some(after) }
        _ => None,
    }
}

/// What comes after the line `tick 1` where a text begins with it.
#[inline(always)]
fn after_one_tick(text: &[u8]) -> Option<&[u8]>
    ensures { IfSome result (λ r. text.now ≡ codes "tick 1" ++ 10 ∷ r.now) }
{
    match text {
        [a, b, c, d, b' ', e, f, after @ ..]
            if u32::from_le_bytes([*a, *b, *c, *d]) == TICK
                && u16::from_le_bytes([*e, *f]) == ONE => { Some(after) }
        _ => None,
    }
}

/// What the first line of a text counts once, and the text after it, if the line is `cpu 1` or `tick 1`.
#[inline(always)]
#[tactic(auto, using(crate::proofs::ShortLines::step_first, crate::proofs::ShortLines::tick_first))]
pub(crate) fn single_line(text: &[u8]) -> Option<(Counted, &[u8])>
    ensures first { IfSome result (λ r. IsFirstLine text.now r.1.now (event_run (counted_event r.0) 1)) }
    ensures shorter { IfSome result (λ r. length r.1.now < length text.now) }
{
    if let Some(after) = after_one_step(text) {
        return Some((Counted::Steps, after));
    }
    let after = after_one_tick(text)?;
    Some((Counted::Ticks, after))
}

/// What the first line of a text counts, how many of them, and the text after it, if the line has the short form.
#[inline(always)]
pub(crate) fn short_line(text: &[u8]) -> Option<(Counted, u32, &[u8])>
    ensures first { IfSome result (λ r. IsFirstLine text.now r.2.now (event_run (counted_event r.0) r.1)) }
    ensures some { IfSome result (λ r. 0 < r.1) }
    ensures shorter { IfSome result (λ r. length r.2.now < length text.now) }
{
    if let Some(digits) = after_cpu(text) {
        let (count, after) = count_line(digits)?;
        return Some((Counted::Steps, count, after));
    }
    let digits = after_tick(text)?;
    let (count, after) = count_line(digits)?;
    Some((Counted::Ticks, count, after))
}
