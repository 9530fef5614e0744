// The two ends of a session, in memory: what is sent, and what is heard.
use std::alloc::Global;
use std::cell::{Cell, RefCell};
use std::io::{self, ErrorKind, Read, Write};

/// What was written, with a mark wherever a line was asked for.
#[derive(Drop)]
pub(crate) struct Talk {
    text: RefCell<Vec<u8>>,
    /// Whether something was written and not flushed.
    waits: Cell<bool>,
}

impl Talk {
    /// Nothing was written, and nothing asked for.
    pub(crate) fn new(alloc: Global) -> Talk {
        Talk {
            text: RefCell::new(Vec::new(alloc)),
            waits: Cell::new(false),
        }
    }

    /// All that was written.
    pub(crate) fn into_text(self) -> Vec<u8> {
        let Talk { text, .. } = self;
        text.into_inner()
    }

    fn add(&self, bytes: &[u8]) -> io::Result<()> {
        match self.text.try_borrow_mut() {
            Ok(mut text) => Ok(text.extend_from_slice(bytes)?),
            Err(_) => Err(io::Error::from(ErrorKind::Other)),
        }
    }

    /// Marks that a line is asked for.
    fn mark(&self) -> io::Result<()> {
        self.add(if self.waits.get() { b"!" } else { b"?" })
    }
}

/// Counts calls, and fails at one.
#[derive(Clone, Copy)]
struct Calls {
    made: u32,
    fails_at: u32,
}

impl Calls {
    fn failing_at(number: u32) -> Calls {
        Calls {
            made: 0,
            fails_at: number,
        }
    }

    /// Counts a call. It fails if it has the number, and each second one is interrupted.
    fn next(&mut self) -> io::Result<()> {
        self.made = self.made.saturating_add(1);
        if self.made == self.fails_at {
            Err(io::Error::from(ErrorKind::Other))
        } else if self.made % 2 == 0 {
            Err(io::Error::from(ErrorKind::Interrupted))
        } else {
            Ok(())
        }
    }

    /// Whether the call that fails was made.
    fn has_failed(&self) -> bool {
        self.fails_at > 0 && self.made >= self.fails_at
    }
}

/// What is sent: a byte comes at each read.
#[derive(Drop)]
pub(crate) struct Sent<'a> {
    talk: &'a Talk,
    left: &'a [u8],
    calls: Calls,
    /// Whether the next byte is the first of a line.
    at_line: bool,
}

impl<'a> Sent<'a> {
    /// These bytes. The read of this number fails; none if it is 0.
    pub(crate) fn new(talk: &'a Talk, left: &'a [u8], fails_at: u32) -> Sent<'a> {
        Sent {
            talk,
            left,
            calls: Calls::failing_at(fails_at),
            at_line: true,
        }
    }
}

impl<'a> Read for Sent<'a> {
    fn read(&mut self, buf: &mut [u8]) -> io::Result<usize> {
        if self.at_line {
            self.talk.mark()?;
            self.at_line = false;
        }
        self.calls.next()?;
        let count = buf.len().min(self.left.len()).min(1);
        let (given, rest) = self.left.split_at(count);
        buf[..count].copy_from_slice(given);
        self.left = rest;
        self.at_line = given.is_empty() || given.ends_with(b"\n");
        Ok(count)
    }
}

/// What is heard: at most two bytes at each write.
#[derive(Drop)]
pub(crate) struct Heard<'a> {
    talk: &'a Talk,
    calls: Calls,
}

impl<'a> Heard<'a> {
    /// The write or flush of this number fails, and each after it; none if it is 0.
    pub(crate) fn new(talk: &'a Talk, fails_at: u32) -> Heard<'a> {
        Heard {
            talk,
            calls: Calls::failing_at(fails_at),
        }
    }

    /// Counts a call, if none has failed.
    fn next(&mut self) -> io::Result<()> {
        if self.calls.has_failed() {
            return Err(io::Error::from(ErrorKind::Other));
        }
        self.calls.next()
    }
}

impl<'a> Write for Heard<'a> {
    fn write(&mut self, buf: &[u8]) -> io::Result<usize> {
        self.next()?;
        let count = buf.len().min(2);
        self.talk.add(&buf[..count])?;
        self.talk.waits.set(true);
        Ok(count)
    }

    // A flush isn't interrupted.
    fn flush(&mut self) -> io::Result<()> {
        match self.next() {
            Err(error) if error.kind() != ErrorKind::Interrupted => return Err(error),
            _ => {}
        }
        self.talk.waits.set(false);
        Ok(())
    }
}
