//! Texts that come in, up to a bound.

ghost use Rattle.std.specs.Prelude.{◌≡◌, ◌≢◌, ◌≤◌, ◌-◌, length, IfOk, IfSome, IsErr};
ghost use Rattle.std.specs.Io.{ReadsAtMost};
ghost use Rattle.std.specs.Io.KnownBytes.{ReadConsumes};
ghost use Rattle.std.specs.IoError.{error_kind};
ghost use Rattle.s4_script.specs.declared.text.TextFault.TheVariants as fault;

use std::alloc::{AllocError, Global};
use std::io::{ErrorKind, Read};
use std::rt::Files;
use std::{fs, io};

/// Why a text doesn't come in.
#[derive(Clone, Copy, Debug, PartialEq, Eq)]
pub enum TextFault {
    /// Its reader failed, or it is too long.
    CannotRead,
    /// There isn't enough memory.
    NoMemory,
}

impl TextFault {
    /// The fault of a reader that failed.
    pub fn of(error: io::Error) -> TextFault
        ensures no_memory { error_kind error ≡ ErrorKind.OutOfMemory → result ≡ fault.NoMemory }
        ensures other { error_kind error ≢ ErrorKind.OutOfMemory → result ≡ fault.CannotRead }
    {
        match error.kind() {
            ErrorKind::OutOfMemory => TextFault::NoMemory,
            _ => TextFault::CannotRead,
        }
    }
}

impl From<AllocError> for TextFault {
    ghost from_gives = { λ _ why. why ≡ fault.NoMemory };

    fn from(_: AllocError) -> TextFault {
        TextFault::NoMemory
    }
}

/// All bytes of the file with that path, as `read_up_to` reads them.
pub fn read_file<R: Files + AllocGlobal>(
    rt: &R,
    path: &str,
    limit: u32,
) -> Result<Vec<u8>, TextFault>
    ensures short { IfOk result (λ text. length text.items ≤ limit) }
{
    let mut file = fs::open(rt, path).map_err(TextFault::of)?;
    read_up_to(rt.alloc(), &mut file, limit)
}

/// All bytes of the reader, where there are at most so many, and it takes at most so many reads to
/// come to their end. Interrupted reads count, and so does the one that finds the end.
///
/// `CannotRead` where there are more, or the reader fails; `NoMemory` where they don't fit in
/// memory.
pub fn read_up_to<R: Read>(alloc: Global, reader: &mut R, limit: u32) -> Result<Vec<u8>, TextFault>
    ensures whole { IfOk result
        (λ text. IfSome (R.remaining reader.old) (λ bytes. text.items ≡ bytes)) }
    ensures short { IfOk result (λ text. length text.items ≤ limit) }
{
    let mut text = Vec::new(alloc);
    let patient = Patient {
        inner: reader,
        left: limit,
    };
    let mut start = patient.take(u64::from(limit) + 1);
    start.read_to_end(&mut text).map_err(TextFault::of)?;
    if text.len() > limit as usize {
        return Err(TextFault::CannotRead);
    }
    Ok(text)
}

/// A reader that is read so many times more, and then fails.
#[derive(Drop)]
struct Patient<R> {
    inner: R,
    left: u32,
}

impl<R: Read> Read for Patient<R> {
    ghost remaining = { λ patient. R.remaining patient.inner };

    fn read(&mut self, buf: &mut [u8]) -> io::Result<usize>
        ensures bound { ReadsAtMost result buf.new }
        ensures bytes { ReadConsumes
            (R.remaining self.old.inner) (R.remaining self.new.inner) result buf.new }
        ensures counts { self.new.left ≡ self.old.left - 1 }
        ensures spent { self.old.left ≡ 0 → IsErr result }
    {
        if self.left == 0 {
            return Err(io::Error::from(ErrorKind::TimedOut));
        }
        self.left -= 1;
        self.inner.read(buf)
    }
}
