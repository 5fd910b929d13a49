//! Peers in memory: narrow ones, and ones that fail.

use std::io;
use std::io::{Error, ErrorKind, Read, Write};

/// The call of this number fails so, from 0 on.
pub type Failure = Option<(u64, ErrorKind)>;

/// Gives at most so many bytes at a time; one of its calls may fail.
#[derive(Drop)]
pub struct Source<'a> {
    pub bytes: &'a [u8],
    pub width: usize,
    pub calls: u64,
    pub fails: Failure,
}

impl Read for Source<'_> {
    fn read(&mut self, buf: &mut [u8]) -> io::Result<usize> {
        let call = self.calls;
        self.calls = call.wrapping_add(1);
        match self.fails {
            Some((number, kind)) if number == call => Err(Error::from(kind)),
            _ => {
                let most = buf.len().min(self.width);
                self.bytes.read(&mut buf[..most])
            }
        }
    }
}

/// Takes at most so many bytes at a time; one of its calls may fail.
#[derive(Drop)]
pub struct Sink {
    pub taken: Vec<u8>,
    pub width: usize,
    pub calls: u64,
    pub fails: Failure,
}

impl Write for Sink {
    fn write(&mut self, buf: &[u8]) -> io::Result<usize> {
        let call = self.calls;
        self.calls = call.wrapping_add(1);
        match self.fails {
            Some((number, kind)) if number == call => Err(Error::from(kind)),
            _ => {
                let count = buf.len().min(self.width);
                self.taken.extend_from_slice(&buf[..count])?;
                Ok(count)
            }
        }
    }

    fn flush(&mut self) -> io::Result<()> {
        Ok(())
    }
}
