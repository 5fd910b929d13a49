//! Frames.

ghost use Rattle.std.specs.Prelude.{◌≡◌, ◌^◌, nat_lt};
ghost use Rattle.s4_codec.specs.Frames.{front_of};
ghost use Rattle.s4_codec.specs.Versions as versions;
ghost use Rattle.s4_codec.specs.Versions.{length_width};
ghost use Rattle.s4_codec.specs.Fronts.{lists_of};

use byteorder::{BigEndian, ByteOrder};
use s4_types::WireVersion;

/// The most bytes that the body of a request or a reply has: 8192 by version 1, and 131072 by
/// version 2.
pub fn frame_limit(version: WireVersion) -> usize
    ensures { result ≡ versions.frame_limit version }
{
    match version {
        WireVersion::One => 8192,
        WireVersion::Two => 131072,
    }
}

/// Whether so many bytes of data have a length that can be spelled.
pub fn has_length(version: WireVersion, count: usize) -> bool
    ensures { result ≡ nat_lt count (256 ^ length_width version) }
{
    match version {
        WireVersion::One => count < 1 << 16,
        WireVersion::Two => count < 1 << 32,
    }
}

/// What stands at the front of bytes.
#[derive(Clone, Copy, Debug)]
pub enum Front<'a> {
    /// A whole frame: its body, and the bytes after it.
    Whole { body: &'a [u8], rest: &'a [u8] },
    /// Less than a frame.
    Part,
    /// A length that no frame has.
    BadLength,
}

/// What stands at the front of the bytes, where the body of a frame has at most `limit` bytes.
pub fn read_frame(limit: usize, bytes: &[u8]) -> Front
    ensures { lists_of result ≡ front_of limit bytes.now }
{
    if bytes.len() < 4 {
        return Front::Part;
    }
    let length = BigEndian::read_u32(bytes) as usize;
    let rest = &bytes[4..];
    if length == 0 || length > limit {
        return Front::BadLength;
    }
    if rest.len() < length {
        return Front::Part;
    }
    let (body, rest) = rest.split_at(length);
    Front::Whole { body, rest }
}
