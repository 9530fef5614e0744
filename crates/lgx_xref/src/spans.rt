// Where the tags lie, and which of them has a bit.
ghost use Rattle.std.specs.Prelude.{◌≡◌, ◌<◌, true, length, IfOk};
ghost use Rattle.spec_language.specs.TagSpans.{spans_of};
ghost use Rattle.lgx_xref.specs.Apart.{AreApart, IsTagWith};

use lgx_num::Memory;
use lgx_tags::{TagSpan, TagTable};
use std::alloc::Global;

/// Where each tag lies, in the order of the layout.
pub(crate) fn tag_spans(alloc: Global, tags: &TagTable) -> Result<Vec<TagSpan>, Memory>
    requires { tags.now.sealed ≡ true }
    ensures { IfOk result (λ spans. spans.items ≡ spans_of tags.now.declarations) }
{
    let count = tags.tag_count();
    let mut spans = Vec::with_capacity(alloc, count as usize)?;
    for number in 0..count {
        if let Some(span) = tags.tag_at(number) {
            spans.push(span)?;
        }
    }
    Ok(spans)
}

/// The tag that has a bit of the image, by its number.
pub(crate) fn tag_with(spans: &[TagSpan], bit: u32) -> Option<usize>
    requires { AreApart spans.now }
    ensures { IsTagWith spans.now bit result }
{
    let byte = bit / 8;
    let mut low = 0;
    let mut high = spans.len();
    while low < high {
        let middle = low + (high - low) / 2;
        let span = spans[middle];
        if span.end <= byte {
            low = middle + 1;
        } else if byte < span.start {
            high = middle;
        } else {
            return Some(middle);
        }
    }
    None
}
