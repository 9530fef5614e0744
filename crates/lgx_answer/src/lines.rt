// A text that is handed out line by line.
ghost use Rattle.std.specs.Prelude.{◌≡◌, ◌<◌, ◌≤◌, ◌++◌, List, [], ℕ, Ok, true, false, length, take};
ghost use Rattle.std.specs.Io.BufRead.{take_through};

use lgx_num::Memory;

/// What hands out the lines of a text.
pub trait Lines: Drop + Sized {
    /// The text of the lines that are left.
    ghost rest: { Self → List ℕ };

    /// A number that falls with each line.
    ghost left: { Self → ℕ };

    /// Makes the next line, in place of what is in `line`; `false` if there is none.
    fn line(&mut self, line: &mut Vec<u8>) -> Result<bool, Memory>
        ensures more { result ≡ Ok true → rest self.old ≡ line.new.items ++ rest self.new }
        ensures fewer { result ≡ Ok true → left self.new < left self.old }
        ensures none { result ≡ Ok false → rest self.old ≡ [] };
}

/// No line: what a command has that says all that it says in one piece.
#[derive(Drop)]
pub struct NoLines;

impl Lines for NoLines {
    ghost rest = { λ l. [] };

    ghost left = { λ l. 0 };

    fn line(&mut self, _line: &mut Vec<u8>) -> Result<bool, Memory> {
        Ok(false)
    }
}

/// How many bytes the first line has, with its LF; all of them if there is no LF.
pub fn line_length(lines: &[u8]) -> usize
    requires { 0 < length lines.now }
    ensures within { (0 < result) × (result ≤ length lines.now) }
    ensures line { take result lines.now ≡ take_through 10 lines.now }
{
    let mut count = 0;
    for byte in lines {
        count += 1;
        if *byte == b'\n' {
            break;
        }
    }
    count
}
