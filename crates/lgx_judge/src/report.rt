// The lines of a report, by number.
ghost use Rattle.std.specs.Prelude.{◌≡◌, ◌+◌, ◌<◌, ◌≤◌, [], ◌++◌, length, true, false, OnOk};
ghost use Rattle.spec_base.specs.declared.limits.TheConstants.{MAX_REPORT_LINES};
ghost use Rattle.lgx_judge.specs.ReportLines.{line_at, end_line, report_from};

use crate::ends::End;
use lgx_num::Memory;
use lgx_watch::{Log, Names, end_text, push_line_text};

/// Makes line number `i` of the log, in place of what is in the text.
fn log_line(text: &mut Vec<u8>, log: &Log, names: &Names, i: u32) -> Result<(), Memory>
    requires { i < length log.now.lines }
    ensures { OnOk result (text.new.items ≡ line_at names.now log.now.lines i) }
{
    text.clear();
    push_line_text(text, log, i, names)
}

/// Makes the end line of a report, in place of what is in the text. Out of memory comes if there is no room for it.
pub fn end_line(text: &mut Vec<u8>, log: &Log, end: End) -> Result<(), Memory>
    ensures { OnOk result (text.new.items ≡ end_line log.now end) }
{
    let alloc = *text.allocator();
    *text = end_text(alloc, end.tick, end.steps, end.mode, log)?;
    Ok(())
}

/// Makes line number `next` of a report, counted from 0, in place of what is in the text; `false` if the report has no such line.
/// The end line has the number after the last of the log's. Out of memory comes if there is no room for the line, and the text may
/// hold a part of it then.
#[tactic(auto, using(crate::proofs::Reports::from_log_line, crate::proofs::Reports::from_end_line, crate::proofs::Reports::from_past))]
pub fn report_line(
    text: &mut Vec<u8>,
    log: &Log,
    names: &Names,
    end: End,
    next: u32,
) -> Result<bool, Memory>
    ensures more { result ≡ Ok true → report_from names.now log.now end next ≡ text.new.items ++ report_from names.now log.now end (next + 1) }
    ensures none { result ≡ Ok false → report_from names.now log.now end next ≡ [] }
    ensures below { result ≡ Ok true → next < length log.now.lines + 1 }
    ensures room { result ≡ Ok true → next ≤ MAX_REPORT_LINES }
{
    let kept = log.lines();
    if next < kept {
        log_line(text, log, names, next)?;
        return Ok(true);
    }
    if kept < next {
        return Ok(false);
    }
    end_line(text, log, end)?;
    Ok(true)
}
