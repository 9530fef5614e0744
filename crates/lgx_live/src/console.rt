// Who is at the other end: lines come from it, and bytes go to it.
ghost use Rattle.std.specs.Prelude.{◌≡◌, []};
ghost use Rattle.lgx_live.specs.Console.{ConsoleSeen, Asks, Says, Flushes};

use lgx_io::SinkFault;

/// Why no line came.
#[derive(Clone, Copy, PartialEq, Eq)]
pub enum AskFault {
    /// The read failed.
    Failed,

    /// Out of memory.
    Memory,
}

/// Where lines come from, one by one, and where the answers go.
pub trait Console {
    ghost seen: { Self → ConsoleSeen };

    /// Asks for the next line, which is then in `line` without its line feed; `false` if there is none. Whoever asks has written
    /// all that was put before.
    fn next_line(&mut self, line: &mut Vec<u8>) -> Result<bool, AskFault>
        requires { (seen self.old).waiting ≡ [] }
        ensures { Asks (seen self.old) (seen self.new) line.new.items result };

    /// Puts a text, which may wait to be written.
    fn put(&mut self, text: &[u8]) -> Result<(), SinkFault>
        ensures { Says (seen self.old) (seen self.new) text.now result };

    /// Writes all that waits, for which it needs no memory.
    fn flush(&mut self) -> Result<(), SinkFault>
        ensures { Flushes (seen self.old) (seen self.new) result };
}
