//! Readers and writers that are slow, narrow or fail.

use std::alloc::Global;
use std::cell::Cell;
use std::io;
use std::io::{ErrorKind, Read, Write};

/// Gives so many bytes at a time, each time after an interruption where it is told to, and fails so at
/// the end where it is told to.
#[derive(Drop)]
pub struct Slow<'a> {
    bytes: &'a [u8],
    width: usize,
    interrupts: bool,
    is_ready: bool,
    fails: Option<ErrorKind>,
}

impl<'a> Slow<'a> {
    pub fn new(bytes: &'a [u8], width: usize, interrupts: bool) -> Slow<'a> {
        Slow {
            bytes,
            width,
            interrupts,
            is_ready: false,
            fails: None,
        }
    }

    /// Gives a byte at a time, each after an interruption.
    pub fn trickle(bytes: &'a [u8]) -> Slow<'a> {
        Slow::new(bytes, 1, true)
    }

    /// Such a trickle, which fails so at the end.
    pub fn failing(bytes: &'a [u8], kind: ErrorKind) -> Slow<'a> {
        let mut slow = Slow::trickle(bytes);
        slow.fails = Some(kind);
        slow
    }
}

impl Read for Slow<'_> {
    fn read(&mut self, buf: &mut [u8]) -> io::Result<usize> {
        self.is_ready = !self.is_ready;
        if self.interrupts && self.is_ready {
            return Err(io::Error::from(ErrorKind::Interrupted));
        }
        if let (true, Some(kind)) = (self.bytes.is_empty(), self.fails) {
            return Err(io::Error::from(kind));
        }
        let most = buf.len().min(self.width);
        self.bytes.read(&mut buf[..most])
    }
}

/// Gives whatever stands where it is to write, and counts the bytes; or is interrupted whenever it is
/// asked, and counts how often.
#[derive(Drop)]
pub struct Endless<'a> {
    pub counted: &'a Cell<u64>,
    pub interrupts: bool,
}

impl Read for Endless<'_> {
    fn read(&mut self, buf: &mut [u8]) -> io::Result<usize> {
        let more = if self.interrupts { 1 } else { buf.len() as u64 };
        self.counted.set(self.counted.get().wrapping_add(more));
        if self.interrupts {
            return Err(io::Error::from(ErrorKind::Interrupted));
        }
        Ok(buf.len())
    }
}

/// Takes so many bytes at a time while there is room. Then it fails, or takes none.
#[derive(Drop)]
pub struct Narrow {
    pub taken: Vec<u8>,
    pub width: usize,
    pub room: usize,
    pub fails: bool,
    pub flushes: bool,
}

impl Narrow {
    pub fn new(alloc: Global, width: usize, room: usize) -> Narrow {
        Narrow {
            taken: Vec::new(alloc),
            width,
            room,
            fails: true,
            flushes: true,
        }
    }
}

impl Write for Narrow {
    fn write(&mut self, buf: &[u8]) -> io::Result<usize> {
        if self.room == 0 && self.fails {
            return Err(io::Error::from(ErrorKind::StorageFull));
        }
        let count = buf.len().min(self.width).min(self.room);
        self.taken.extend_from_slice(&buf[..count])?;
        self.room -= count;
        Ok(count)
    }

    fn flush(&mut self) -> io::Result<()> {
        if self.flushes {
            Ok(())
        } else {
            Err(io::Error::from(ErrorKind::BrokenPipe))
        }
    }
}
