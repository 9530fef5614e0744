// The output, line by line.
ghost use Rattle.std.specs.Prelude.{◌≡◌, length, IfOk};
ghost use Rattle.cmd_link.specs.LinkTexts.{IsLinkText, WasRead, link_rest};

use lgx_answer::{Lines, line_length};
use lgx_link::link_text;
use lgx_num::Memory;
use lgx_project::Project;
use spec_link::LinkScript;
use std::alloc::Global;

/// The lines of a text, from a byte on.
#[derive(Drop)]
pub struct LinkLines {
    text: Vec<u8>,
    at: usize,
}

impl Lines for LinkLines {
    ghost use Rattle.std.specs.Prelude.{◌-◌};
    ghost use Rattle.cmd_link.specs.LinkTexts.{link_rest};

    ghost rest = { link_rest };

    ghost left = { λ l. length l.text.items - l.at };

    fn line(&mut self, line: &mut Vec<u8>) -> Result<bool, Memory> {
        self.next_line(line)
    }
}

impl LinkLines {
    ghost use Rattle.std.specs.Prelude.{◌≡◌, ◌<◌, ◌++◌, ◌-◌, [], Ok, true, false, length};
    ghost use Rattle.std.specs.Io.BufRead.{take_through};

    /// Makes the next line, and no more than that, in place of what is in `line`; `false` if there is none.
    fn next_line(&mut self, line: &mut Vec<u8>) -> Result<bool, Memory>
        ensures one { result ≡ Ok true → line.new.items ≡ take_through 10 (link_rest self.old) }
        ensures more { result ≡ Ok true → link_rest self.old ≡ line.new.items ++ link_rest self.new }
        ensures fewer { result ≡ Ok true → length self.new.text.items - self.new.at < length self.old.text.items - self.old.at }
        ensures none { result ≡ Ok false → link_rest self.old ≡ [] }
    {
        if self.at >= self.text.len() {
            return Ok(false);
        }
        let lines = &self.text[self.at..];
        let count = line_length(lines);
        line.clear();
        line.extend_from_slice(&lines[..count])?;
        self.at += count;
        Ok(true)
    }
}

/// What the controllers of two projects do as a link script says. Both are large, so they aren't in the frame of what reads files.
#[inline(never)]
pub(crate) fn linked(
    alloc: Global,
    a: Project,
    b: Project,
    script: &LinkScript,
) -> Result<LinkLines, Memory>
    requires { WasRead a b script.now }
    ensures { IfOk result (λ lines. IsLinkText a b script.now (link_rest lines)) }
{
    a.parts().law_of_validity();
    b.parts().law_of_validity();
    let text = link_text(alloc, a, b, script)?;
    Ok(LinkLines { text, at: 0 })
}
