// A console over a reader and a writer.
ghost use Rattle.std.specs.Prelude.{◌≡◌, ◌+◌, ◌<◌, take};
ghost use Rattle.spec_text.specs.TextLines.{without_return};
ghost use Rattle.lgx_live.specs.Console.{ConsoleSeen, Asks, Says, Flushes};
ghost use Rattle.lgx_live.specs.Piped.{console_seen};

use crate::console::{AskFault, Console};
use crate::reading::read_line;
use lgx_io::{Gathered, Sink, SinkFault};
use spec_base::limits::MAX_LINE_BYTES;
use std::io::{Read, Write};
use std::marker::Model;

/// Lines from a reader, and texts to a writer, gathered until they are flushed. Of a line of more than 65,536 bytes the first
/// 65,537 come, and its rest is passed over.
#[derive(Drop)]
pub struct Piped<R: Read + Drop, W: Write + Drop> {
    reader: R,
    output: Gathered<W>,
    misses: u64,
}

impl<R: Read + Drop, W: Write + Drop> Model for Piped<R, W> {
    ghost use Rattle.lgx_live.specs.Console.{ConsoleSeen};
    ghost use Rattle.lgx_live.specs.Piped.{console_seen};

    ghost Value = { ConsoleSeen };

    ghost view = { λ p. console_seen (R.remaining p.reader) p.output p.misses };
}

impl<R: Read + Drop, W: Write + Drop> Piped<R, W> {
    /// What this reader has left, and this output. No read has failed.
    pub fn new(reader: R, output: Gathered<W>) -> Self
        ensures { result ≡ console_seen (R.remaining reader) output 0 }
    {
        Piped {
            reader,
            output,
            misses: 0,
        }
    }
}

/// Drops a carriage return at the end.
#[tactic(auto, using(lgx_journal::proofs::LineSplits::return_dropped, lgx_journal::proofs::LineSplits::return_missing, lgx_journal::proofs::LineSplits::empty_kept))]
fn drop_return(line: &mut Vec<u8>)
    ensures { line.new.items ≡ without_return line.old.items }
{
    let len = line.len();
    if len > 0 {
        if line[len - 1] == b'\r' {
            line.truncate(len - 1);
        }
    }
}

impl<R: Read + Drop, W: Write + Drop> Console for Piped<R, W> {
    ghost seen = { λ p. p };

    fn next_line(&mut self, line: &mut Vec<u8>) -> Result<bool, AskFault> {
        match read_line(&mut self.reader, line) {
            Ok(true) => {
                drop_return(line);
                line.truncate(MAX_LINE_BYTES + 1);
                Ok(true)
            }
            Ok(false) => {
                line.truncate(MAX_LINE_BYTES + 1);
                Ok(!line.is_empty())
            }
            Err(AskFault::Failed) => {
                self.misses = self.misses.saturating_add(1);
                Err(AskFault::Failed)
            }
            Err(AskFault::Memory) => Err(AskFault::Memory),
        }
    }

    fn put(&mut self, text: &[u8]) -> Result<(), SinkFault> {
        self.output.put(text)
    }

    fn flush(&mut self) -> Result<(), SinkFault> {
        self.output.finish()
    }
}
