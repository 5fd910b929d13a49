//! The lines of an input.

ghost use Rattle.std.specs.Prelude.{◌≡◌, ◌<◌, ◌+◌, ◌++◌, false, Ok, IfOk, IfNone, IfSome, MatchOption, OnOk, drop, length};
ghost use Rattle.std.specs.Io.KnownBytes.{Consumes, IsAtEnd, Keeps, prepend_known};
ghost use Rattle.s4_asking.specs.Lines.{with_feed};

use crate::line_fault::{LINE_LIMIT, LineFault};
use bytes::BytesMut;
use s4_stream::split_at_byte;
use std::alloc::Global;
use std::io::{ErrorKind, Read};

/// How many bytes are read at once, at most.
const PIECE: usize = 16384;

/// Whether a whole line is held.
pub fn has_line(held: &BytesMut) -> bool {
    first_line(held.as_slice()).is_some()
}

/// The next line, without the line feed behind it, where the input isn't at its end. `held` has what was
/// read and isn't taken. `Cut` where the input ends behind bytes without a line feed, and `TooLong` where
/// there are more of these than a line has; `CannotRead` where the reader fails.
pub fn next_line<L: Read>(
    alloc: Global,
    held: &mut BytesMut,
    input: &mut L,
) -> Result<Option<Vec<u8>>, LineFault>
    // What is held, and then what the reader has left, begins with the line and its line feed.
    ensures line { IfOk result (λ line. IfSome line (λ bytes. Consumes
        (prepend_known held.old.items (L.remaining input.old))
        (prepend_known held.new.items (L.remaining input.new)) (with_feed bytes.items))) }
    // Without a line nothing is left.
    ensures end { IfOk result (λ line. IfNone line
        (IsAtEnd (prepend_known held.old.items (L.remaining input.old)))) }
{
    for _ in 0..u64::MAX {
        if let Some(line) = take_line(alloc, held)? {
            return Ok(Some(line));
        }
        if !fill(held, input)? {
            return if held.is_empty() {
                Ok(None)
            } else {
                Err(LineFault::Cut)
            };
        }
    }
    Err(LineFault::CannotRead)
}

/// The first line that is held, where one is whole.
fn take_line(alloc: Global, held: &mut BytesMut) -> Result<Option<Vec<u8>>, LineFault>
    ensures { IfOk result (λ line. MatchOption line (held.new.items ≡ held.old.items)
        (λ bytes. held.old.items ≡ with_feed bytes.items ++ held.new.items)) }
{
    let Some(line) = first_line(held.as_slice()) else {
        let is_long = held.len() > LINE_LIMIT;
        return if is_long {
            Err(LineFault::TooLong)
        } else {
            Ok(None)
        };
    };
    let count = line.len();
    if count > LINE_LIMIT {
        return Err(LineFault::TooLong);
    }
    let taken = Vec::from_slice(alloc, line)?;
    held.advance(count + 1);
    Ok(Some(taken))
}

/// The first line of the bytes, where a line feed stands behind it.
#[tactic(auto, using(crate::proofs::Lines::whole_front))]
fn first_line(bytes: &[u8]) -> Option<&[u8]>
    ensures within { IfSome result (λ line. length line.now < length bytes.now) }
    ensures line { IfSome result (λ line. bytes.now
        ≡ with_feed line.now ++ drop (length line.now + 1) bytes.now) }
{
    let (line, _) = split_at_byte(bytes, b'\n');
    if line.len() < bytes.len() {
        Some(line)
    } else {
        None
    }
}

/// Reads once. Tells whether there may be more.
fn fill<L: Read>(held: &mut BytesMut, input: &mut L) -> Result<bool, LineFault>
    ensures kept { OnOk result (Keeps
        (prepend_known held.old.items (L.remaining input.old))
        (prepend_known held.new.items (L.remaining input.new))) }
    ensures end { result ≡ Ok false → (held.new.items ≡ held.old.items) × IsAtEnd (L.remaining input.new) }
{
    held.reserve(PIECE)?;
    match held.read_from(input) {
        Ok(count) => Ok(count > 0),
        Err(error) => match error.kind() {
            ErrorKind::Interrupted => Ok(true),
            ErrorKind::OutOfMemory => Err(LineFault::NoMemory),
            _ => Err(LineFault::CannotRead),
        },
    }
}
