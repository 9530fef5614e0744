// A slow reader and writer.
use std::io::{self, ErrorKind, Read, Write};

/// Reads and writes at most two bytes at once, and each second call is interrupted. It fails at a call.
#[derive(Drop)]
pub(crate) struct Slow {
    bytes: Vec<u8>,
    calls: u32,
    fails_at: u32,
}

impl Slow {
    /// One that has these bytes, and fails at the call of this number; at none if it is 0.
    pub(crate) fn new(bytes: Vec<u8>, fails_at: u32) -> Slow {
        Slow {
            bytes,
            calls: 0,
            fails_at,
        }
    }

    /// What is left to read, or was written.
    pub(crate) fn bytes(&self) -> &[u8] {
        &self.bytes
    }

    fn call(&mut self) -> io::Result<usize> {
        self.calls = self.calls.saturating_add(1);
        if self.calls == self.fails_at {
            return Err(io::Error::from(ErrorKind::Other));
        }
        if self.calls % 2 == 0 {
            return Err(io::Error::from(ErrorKind::Interrupted));
        }
        Ok(2)
    }
}

impl Read for Slow {
    fn read(&mut self, buf: &mut [u8]) -> io::Result<usize> {
        let count = self.call()?.min(buf.len()).min(self.bytes.len());
        let rest = self.bytes.split_off(count)?;
        buf[..count].copy_from_slice(&self.bytes);
        self.bytes = rest;
        Ok(count)
    }
}

impl Write for Slow {
    fn write(&mut self, buf: &[u8]) -> io::Result<usize> {
        let count = self.call()?.min(buf.len());
        self.bytes.extend_from_slice(&buf[..count])?;
        Ok(count)
    }

    fn flush(&mut self) -> io::Result<()> {
        Ok(())
    }
}
