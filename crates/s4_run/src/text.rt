//! Texts that come in.

ghost use Rattle.std.specs.Prelude.{◌≡◌, IfOk, IfSome};

use crate::fault::RunFault;
use s4_script::read_up_to;
use std::alloc::Global;
use std::io::Read;

/// The most bytes of a text, and the most reads that it may take.
const TEXT_LIMIT: u32 = 268435456;

/// All bytes of the reader.
pub fn read_text<R: Read>(alloc: Global, reader: &mut R) -> Result<Vec<u8>, RunFault>
    ensures whole { IfOk result
        (λ text. IfSome (R.remaining reader.old) (λ bytes. text.items ≡ bytes)) }
{
    Ok(read_up_to(alloc, reader, TEXT_LIMIT)?)
}
