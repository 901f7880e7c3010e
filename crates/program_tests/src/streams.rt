//! Readers and writers that are long, or that fail.

use std::io;
use std::io::{Error, ErrorKind, Read, Write};

/// A reader of this many blanks.
#[derive(Drop)]
pub(crate) struct Blanks {
    pub(crate) left: usize,
}

impl Read for Blanks {
    fn read(&mut self, buf: &mut [u8]) -> io::Result<usize> {
        let count = buf.len().min(self.left);
        for byte in buf.iter_mut() {
            *byte = b' ';
        }
        self.left -= count;
        Ok(count)
    }
}

/// A reader that fails at its second call.
#[derive(Drop)]
pub(crate) struct Failing {
    pub(crate) calls: u8,
}

impl Read for Failing {
    fn read(&mut self, buf: &mut [u8]) -> io::Result<usize> {
        if self.calls > 0 || buf.is_empty() {
            return Err(Error::from(ErrorKind::Other));
        }
        self.calls = 1;
        buf[0] = b'{';
        Ok(1)
    }
}

/// A writer that takes nothing.
#[derive(Drop)]
pub(crate) struct Closed;

impl Write for Closed {
    fn write(&mut self, _buf: &[u8]) -> io::Result<usize> {
        Err(Error::from(ErrorKind::BrokenPipe))
    }

    fn flush(&mut self) -> io::Result<()> {
        Ok(())
    }
}

/// Gives one byte at each call.
#[derive(Drop)]
pub(crate) struct Trickling<'a> {
    pub(crate) left: &'a [u8],
}

impl Read for Trickling<'_> {
    fn read(&mut self, buffer: &mut [u8]) -> io::Result<usize> {
        match (self.left, buffer) {
            ([first, rest @ ..], [to, ..]) => {
                *to = *first;
                self.left = rest;
                Ok(1)
            }
            _ => Ok(0),
        }
    }
}
