//! A reader and a writer that note what passed through them.

ghost use Rattle.std.specs.Prelude.{◌≡◌, length, nat_lt, IfOk, IsTrue};
ghost use Rattle.std.specs.Io.{ReadsAtMost, WritesAtMost};
ghost use Rattle.std.specs.Io.KnownBytes.{Keeps, ReadConsumes, WriteAppends};

use crate::opening::Opening;
use std::io;
use std::io::{ErrorKind, Read, Write};

/// Reads a stream, and notes how its connection begins, and whether its last read gave fewer bytes
/// than it could have: then nothing more is there, and what comes later is told as an event of its
/// own. A gauge that is shut reads nothing.
#[derive(Drop)]
pub(crate) struct Gauge<R> {
    stream: R,
    shut: bool,
    opening: Opening,
    short: bool,
}

impl<R: Read> Gauge<R> {
    /// Reads this stream, of which that much was heard, unless it is shut.
    pub(crate) fn new(stream: R, shut: bool, opening: Opening) -> Gauge<R>
        ensures { result.shut ≡ shut }
    {
        Gauge {
            stream,
            shut,
            opening,
            short: false,
        }
    }

    /// How the connection begins, as far as it was heard.
    pub(crate) fn opening(&self) -> Opening
        ensures { result ≡ self.now.opening }
    {
        self.opening
    }

    /// Whether the last read gave fewer bytes than it could have.
    pub(crate) fn is_short(&self) -> bool
        ensures { result ≡ self.now.short }
    {
        self.short
    }
}

impl<R: Read> Read for Gauge<R> {
    ghost remaining = { λ gauge. R.remaining gauge.stream };

    fn read(&mut self, buf: &mut [u8]) -> io::Result<usize>
        ensures bound { ReadsAtMost result buf.new }
        ensures bytes { ReadConsumes
            (R.remaining self.old.stream) (R.remaining self.new.stream) result buf.new }
        ensures shut { IsTrue self.old.shut
            → R.remaining self.new.stream ≡ R.remaining self.old.stream }
        ensures short { IfOk result (λ count. self.new.short ≡ nat_lt count (length buf.new)) }
    {
        if self.shut {
            return Err(io::Error::from(ErrorKind::WouldBlock));
        }
        let count = self.stream.read(buf)?;
        self.opening.note(&buf[..count]);
        self.short = count < buf.len();
        Ok(count)
    }
}

/// Writes to a stream, and notes whether that took bytes. A closed tap has nothing taken now.
#[derive(Drop)]
pub(crate) struct Tap<W> {
    stream: W,
    closed: bool,
    taken: bool,
}

impl<W: Write> Tap<W> {
    /// Writes to this stream, unless it is closed.
    pub(crate) fn new(stream: W, closed: bool) -> Tap<W>
        ensures { result.closed ≡ closed }
    {
        Tap {
            stream,
            closed,
            taken: false,
        }
    }

    /// Whether the stream took bytes.
    pub(crate) fn has_given(&self) -> bool
        ensures { result ≡ self.now.taken }
    {
        self.taken
    }
}

impl<W: Write> Write for Tap<W> {
    ghost contents = { λ tap. W.contents tap.stream };

    fn write(&mut self, buf: &[u8]) -> io::Result<usize>
        ensures bound { WritesAtMost result buf.now }
        ensures bytes { WriteAppends
            (W.contents self.old.stream) (W.contents self.new.stream) result buf.now }
        ensures closed { IsTrue self.old.closed
            → W.contents self.new.stream ≡ W.contents self.old.stream }
    {
        if self.closed {
            return Err(io::Error::from(ErrorKind::WouldBlock));
        }
        let count = self.stream.write(buf)?;
        self.taken = self.taken || count > 0;
        Ok(count)
    }

    fn flush(&mut self) -> io::Result<()>
        ensures bytes { Keeps (W.contents self.old.stream) (W.contents self.new.stream) }
    {
        self.stream.flush()
    }
}
