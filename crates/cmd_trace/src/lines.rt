// The lines of `audit`.
ghost use Rattle.std.specs.Prelude.{◌≡◌, ◌++◌, IfOk, OnOk, decimal};
ghost use Rattle.lgx_audit.specs.Breaches.{Breach};
ghost use Rattle.cmd_trace.specs.AuditPlan.{code_word, yes_line, no_line, trace_cause_line};

use lgx_audit::{TraceCode, TraceFault};
use lgx_num::Memory;
use lgx_watch::{push_count, push_word};
use std::alloc::Global;

/// How many events the trace has.
pub fn yes_line(alloc: Global, events: u64) -> Result<Vec<u8>, Memory>
    ensures { IfOk result (λ text. text.items ≡ yes_line events) }
{
    let mut text = Vec::new(alloc);
    text.extend_from_slice(b"yes")?;
    push_count(&mut text, events)?;
    text.push(b'\n')?;
    Ok(text)
}

/// The decimal digits of a number.
fn push_number(text: &mut Vec<u8>, alloc: Global, number: u8) -> Result<(), Memory>
    ensures { OnOk result (text.new.items ≡ text.old.items ++ decimal number) }
{
    let digits = number.to_string(alloc)?;
    text.extend_from_slice(digits.as_bytes())?;
    Ok(())
}

/// The law that is broken, and the event that breaks it.
pub(crate) fn no_line(alloc: Global, law: u8, at: u64) -> Result<Vec<u8>, Memory>
    ensures { IfOk result (λ text. text.items ≡ no_line (record { law = law; at = at })) }
{
    let mut text = Vec::new(alloc);
    text.extend_from_slice(b"no L")?;
    push_number(&mut text, alloc, law)?;
    push_count(&mut text, at)?;
    text.push(b'\n')?;
    Ok(text)
}

/// The code of a line that is refused.
fn code_word(code: TraceCode) -> &'static [u8]
    ensures { result.now ≡ code_word code }
{
    match code {
        TraceCode::K1 => b"K1",
        TraceCode::K2 => b"K2",
    }
}

/// The line that says why a file is no trace.
pub fn trace_cause_line(alloc: Global, fault: TraceFault) -> Result<Vec<u8>, Memory>
    ensures { IfOk result (λ text. text.items ≡ trace_cause_line fault) }
{
    let mut text = Vec::new(alloc);
    text.extend_from_slice(b"trace")?;
    push_word(&mut text, code_word(fault.code))?;
    push_word(&mut text, b"line")?;
    push_count(&mut text, fault.line)?;
    text.push(b'\n')?;
    Ok(text)
}
