// Shapes of a drawing, as text.
ghost use Rattle.std.specs.Prelude.{◌≡◌, ◌++◌, OnOk};
ghost use Rattle.lgx_picture.specs.Shapes.{escaped_byte, escaped, words_from, words, line_from, down_to, across_to, upright, ground_line, bar_text, bar};

use crate::sizes::LEFT;
use lgx_chart::{push, push_count};
use lgx_num::Memory;
use std::alloc::Global;

/// Adds a byte of a report.
fn push_escaped_byte(text: &mut Vec<u8>, byte: u8) -> Result<(), Memory>
    ensures { OnOk result (text.new.items ≡ text.old.items ++ escaped_byte byte) }
{
    if byte == b'&' {
        return push(text, b"&amp;");
    }
    if byte == b'<' {
        return push(text, b"&lt;");
    }
    if byte == b'>' {
        return push(text, b"&gt;");
    }
    if byte == b'"' {
        return push(text, b"&quot;");
    }
    text.push(byte)?;
    Ok(())
}

/// Adds a text of a report.
#[tactic(auto, unfolding(crate::specs::Shapes::escaped))]
pub(crate) fn push_escaped(text: &mut Vec<u8>, said: &[u8]) -> Result<(), Memory>
    ensures { OnOk result (text.new.items ≡ text.old.items ++ escaped said.now) }
{
    for byte in said {
        push_escaped_byte(text, *byte)?;
    }
    Ok(())
}

/// Adds where words begin.
#[tactic(auto, unfolding(crate::specs::Shapes::words_from))]
fn push_words_from(
    text: &mut Vec<u8>,
    alloc: Global,
    class: &[u8],
    x: u64,
    y: u64,
) -> Result<(), Memory>
    ensures { OnOk result (text.new.items ≡ text.old.items ++ words_from class.now x y) }
{
    push(text, b"<text class=\"")?;
    push(text, class)?;
    push_count(text, alloc, b"\" x=\"", x)?;
    push_count(text, alloc, b"\" y=\"", y)
}

/// Adds words that begin at a place.
#[tactic(auto, unfolding(crate::specs::Shapes::words))]
pub(crate) fn push_words(
    text: &mut Vec<u8>,
    alloc: Global,
    class: &[u8],
    x: u64,
    y: u64,
    said: &[u8],
) -> Result<(), Memory>
    ensures { OnOk result (text.new.items ≡ text.old.items ++ words class.now x y said.now) }
{
    push_words_from(text, alloc, class, x, y)?;
    push(text, b"\">")?;
    push_escaped(text, said)?;
    push(text, b"</text>\n")
}

/// Adds where a line begins.
#[tactic(auto, unfolding(crate::specs::Shapes::line_from))]
pub(crate) fn push_line_from(
    text: &mut Vec<u8>,
    alloc: Global,
    class: &[u8],
    x: u64,
    y: u64,
) -> Result<(), Memory>
    ensures { OnOk result (text.new.items ≡ text.old.items ++ line_from class.now x y) }
{
    push(text, b"<path class=\"")?;
    push(text, class)?;
    push_count(text, alloc, b"\" d=\"M", x)?;
    push_count(text, alloc, b" ", y)
}

/// Adds the way down to a place, and the line's end.
#[tactic(auto, unfolding(crate::specs::Shapes::down_to))]
fn push_down_to(text: &mut Vec<u8>, alloc: Global, y: u64) -> Result<(), Memory>
    ensures { OnOk result (text.new.items ≡ text.old.items ++ down_to y) }
{
    push_count(text, alloc, b"V", y)?;
    push(text, b"\"/>\n")
}

/// Adds the way across to a place, and the line's end.
#[tactic(auto, unfolding(crate::specs::Shapes::across_to))]
pub(crate) fn push_across_to(text: &mut Vec<u8>, alloc: Global, x: u64) -> Result<(), Memory>
    ensures { OnOk result (text.new.items ≡ text.old.items ++ across_to x) }
{
    push_count(text, alloc, b"H", x)?;
    push(text, b"\"/>\n")
}

/// Adds a line down.
pub(crate) fn push_upright(
    text: &mut Vec<u8>,
    alloc: Global,
    class: &[u8],
    x: u64,
    top: u64,
    bottom: u64,
) -> Result<(), Memory>
    ensures { OnOk result (text.new.items ≡ text.old.items ++ upright class.now x top bottom) }
{
    push_line_from(text, alloc, class, x, top)?;
    push_down_to(text, alloc, bottom)
}

/// Adds a line across, from the first time to a place.
pub(crate) fn push_ground_line(
    text: &mut Vec<u8>,
    alloc: Global,
    right: u64,
    y: u64,
) -> Result<(), Memory>
    ensures { OnOk result (text.new.items ≡ text.old.items ++ ground_line right y) }
{
    push_line_from(text, alloc, b"base", LEFT, y)?;
    push_across_to(text, alloc, right)
}

/// What a broad line begins with. Proofs of what is beside it don't look inside.
#[tactic(auto, unfolding(crate::specs::Shapes::bar_text))]
fn bar_text() -> &'static [u8]
    ensures { result.now ≡ bar_text }
{
    b"<path class=\"mark\" style=\"stroke-width:32;stroke-opacity:.4\" d=\"M"
}

/// Adds a broad line, from the left side of a stroke to the right side of another.
pub(crate) fn push_bar(
    text: &mut Vec<u8>,
    alloc: Global,
    first: u32,
    last: u32,
    y: u64,
) -> Result<(), Memory>
    ensures { OnOk result (text.new.items ≡ text.old.items ++ bar first last y) }
{
    let left = u64::from(first.saturating_sub(1));
    push_count(text, alloc, bar_text(), left)?;
    push_count(text, alloc, b" ", y)?;
    push_across_to(text, alloc, u64::from(last) + 1)
}
