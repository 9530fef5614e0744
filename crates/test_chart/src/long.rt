// Rows of long reports.
use lgx_chart::Status;
use lgx_io::{Input, MemSink};
use lgx_picture::draw_timeline;
use std::alloc::{AllocError, Global};
use std::io::Cursor;
use test_rows::Told;

/// Says `STATUS / COUNT strokes` of a drawing of a report of `lines` lines, each a reply, or all of its text if there are none.
pub(crate) fn say_strokes(alloc: Global, lines: &str, told: &mut Told) {
    let mut sink = MemSink::new(alloc, Vec::new(alloc));
    let status = drawn(alloc, lines, "reply 0 ok", &mut sink, told);
    told.number(i64::from(status.number()));
    told.word("/");
    say_count(sink.held(), told);
}

/// Says `STATUS / COUNT begins` of a drawing of a report of `lines` lines, each a begin of one task.
pub(crate) fn say_bar(alloc: Global, lines: &str, told: &mut Told) {
    let mut sink = MemSink::new(alloc, Vec::new(alloc));
    let status = drawn(alloc, lines, "begin T P 0", &mut sink, told);
    told.number(i64::from(status.number()));
    told.word("/");
    let text = std::str::from_utf8(sink.held()).unwrap_or("no text");
    let (_, shown) = text.split_once("<g><title>").unwrap_or(("", text));
    told.text(shown.lines().next().unwrap_or("").as_bytes());
}

/// Draws a report of `lines` lines, each with these words.
fn drawn(alloc: Global, lines: &str, said: &str, sink: &mut MemSink, told: &mut Told) -> Status {
    let mut report = String::new(alloc);
    if push_lines(&mut report, lines.parse().unwrap_or(0), said).is_err() {
        told.lack();
    }
    let mut files = Input::new(Cursor::new(report.into_bytes()), alloc);
    draw_timeline(alloc, &[], &mut files, sink)
}

/// Adds `lines` lines, each with these words.
fn push_lines(report: &mut String, lines: u32, said: &str) -> Result<(), AllocError> {
    for line in 0..lines {
        let step = u64::from(line) + 1;
        write!(report, "0 {step} {said}\n")?;
    }
    write!(report, "end 0 {lines} run lost 0\n")
}

/// Says how many strokes a drawing has, or all of its text if there are none.
fn say_count(drawing: &[u8], told: &mut Told) {
    let text = std::str::from_utf8(drawing).unwrap_or("no text");
    let strokes = text.split("<g><title>tick").count().saturating_sub(1);
    if strokes == 0 {
        told.text(drawing);
    } else {
        told.count(strokes);
        told.word("strokes");
    }
}
