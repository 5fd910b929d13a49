//! Reading a body as a whole.

ghost use Rattle.s4_types.specs.declared.principal.WireVersion as versions;
ghost use Rattle.s4_codec.specs.Format.{Format, value_in};
ghost use Rattle.s4_codec.specs.Versions.{frame_limit};
ghost use Rattle.s4_codec.specs.Readings.{Gives, Takes};

use crate::error::ReadError;
use crate::frames::frame_limit;
use crate::input::Input;
use s4_types::WireVersion;
use std::alloc::Global;

/// A type whose values are spelled as the bodies of frames.
pub trait Message: Drop {
    /// How they are spelled.
    ghost format: { versions.WireVersion → Format Self };

    /// Reads one at the front.
    fn read(version: WireVersion, alloc: Global, input: &mut Input) -> Result<Self, ReadError>
        ensures { Takes result input.new.left.now ((Self.format version).at input.old.left.now) };
}

/// The value that the body spells, with no byte left over.
pub fn read_whole<T: Message>(
    version: WireVersion,
    alloc: Global,
    body: &[u8],
) -> Result<T, ReadError>
    ensures { Gives result (value_in (frame_limit version) (T.format version) body.now) }
{
    if body.len() > frame_limit(version) {
        return Err(ReadError::Malformed);
    }
    let mut input = Input { left: body };
    let value = T::read(version, alloc, &mut input)?;
    if !input.left.is_empty() {
        return Err(ReadError::Malformed);
    }
    Ok(value)
}
