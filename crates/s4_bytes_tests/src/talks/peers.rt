//! Readers and writers that are slow, narrow, stay away for a while, or fail.

use std::io;
use std::io::{Error, ErrorKind, Read, Write};

/// What a reader or a writer does at the call of this number, from 0 on, and only there.
pub type Mishap = Option<(u64, ErrorKind)>;

/// How many bytes a reader gives at a time, or a writer takes, where it is in no way narrow.
pub const WIDE: usize = 65536;

/// A peer: what it says, how many bytes of that it gives at a time, how many it takes, and what
/// happens to its reader and its writer.
#[derive(Drop)]
pub struct Peer<'a> {
    pub said: &'a [u8],
    pub gives: usize,
    pub takes: usize,
    pub at_read: Mishap,
    pub at_write: Mishap,
}

impl<'a> Peer<'a> {
    /// A peer that says these bytes, and is in no way narrow.
    pub fn wide(said: &'a [u8]) -> Peer<'a> {
        Peer {
            said,
            gives: WIDE,
            takes: WIDE,
            at_read: None,
            at_write: None,
        }
    }
}

/// Gives at most so many bytes at a time.
#[derive(Drop)]
pub struct Source<'a> {
    pub bytes: &'a [u8],
    pub gives: usize,
    pub mishap: Mishap,
    pub calls: u64,
}

impl Read for Source<'_> {
    fn read(&mut self, buf: &mut [u8]) -> io::Result<usize> {
        let call = self.calls;
        self.calls = call.wrapping_add(1);
        match self.mishap {
            Some((number, kind)) if number == call => Err(Error::from(kind)),
            _ => {
                let most = buf.len().min(self.gives);
                self.bytes.read(&mut buf[..most])
            }
        }
    }
}

/// Takes at most so many bytes at a time.
#[derive(Drop)]
pub struct Sink {
    pub taken: Vec<u8>,
    pub takes: usize,
    pub mishap: Mishap,
    pub calls: u64,
}

impl Write for Sink {
    fn write(&mut self, buf: &[u8]) -> io::Result<usize> {
        let call = self.calls;
        self.calls = call.wrapping_add(1);
        match self.mishap {
            Some((number, kind)) if number == call => Err(Error::from(kind)),
            _ => {
                let count = buf.len().min(self.takes);
                self.taken.extend_from_slice(&buf[..count])?;
                Ok(count)
            }
        }
    }

    fn flush(&mut self) -> io::Result<()> {
        Ok(())
    }
}
