// Writing to a sink: what is put is put here alone.
ghost use Rattle.std.specs.Prelude.{◌≡◌};
ghost use Rattle.lgx_answer.specs.Puts.{Puts};

use crate::lines::Lines;
use lgx_io::{Sink, SinkFault};
use std::alloc::Global;

/// Puts a text, by one put.
#[tactic(auto, using(crate::proofs::Written::put_part, crate::proofs::Written::put_count))]
pub(crate) fn put_text<K: Sink>(text: &[u8], sink: &mut K) -> Result<(), SinkFault>
    ensures { Puts (record { old = K.held sink.old; new = K.held sink.new })
        (record { old = K.faults sink.old; new = K.faults sink.new }) text.now result }
{
    sink.put(text)
}

/// Puts the lines, each by one put. `Failed` is the sink's; `Memory` is the sink's, or there was none for a line.
pub(crate) fn write_lines<L: Lines, K: Sink>(
    alloc: Global,
    lines: L,
    sink: &mut K,
) -> Result<(), SinkFault>
    ensures { Puts (record { old = K.held sink.old; new = K.held sink.new })
        (record { old = K.faults sink.old; new = K.faults sink.new }) (L.rest lines) result }
{
    let mut lines = lines;
    let mut line = Vec::new(alloc);
    loop {
        match lines.line(&mut line) {
            Ok(true) => match put_text(&line, sink) {
                Ok(()) => {}
                Err(fault) => return Err(fault),
            },
            Ok(false) => return Ok(()),
            Err(_) => return Err(SinkFault::Memory),
        }
    }
}
