//! The bytes that changes of an object's data leave (docs/MODEL.md, "Tracks").

ghost use Rattle.std.specs.Prelude.{◌≡◌, ◌<◌, ◌^◌, IfOk, ◌++◌};
ghost use Rattle.s4_types.specs.Versions.{written, of_length as of_that_length};

use crate::byte_string::Bytes;
use crate::memory::NoMemory;
use std::alloc::Global;

impl Bytes {
    /// What these bytes leave of the old ones where they are written over them from `offset` on: a gap
    /// before them is zeros. Where they take the place of all the old ones, they are shared. `NoMemory`
    /// where a growth was refused.
    pub fn written_over(&self, alloc: Global, old: &[u8], offset: u32) -> Result<Bytes, NoMemory>
        ensures { IfOk result (λ new. new ≡ written offset self.now old.now) }
    {
        if offset == 0 && self.len() >= old.len() {
            return self.copy();
        }
        let new = overwritten(alloc, old, offset as usize, self.as_slice())?;
        Bytes::from_vec(new)
    }

    /// The old bytes, and these behind them. Where there are no old ones, these are shared. `NoMemory`
    /// where a growth was refused.
    pub fn appended_to(&self, alloc: Global, old: &[u8]) -> Result<Bytes, NoMemory>
        ensures { IfOk result (λ new. new ≡ old.now ++ self.now) }
    {
        if old.is_empty() {
            return self.copy();
        }
        let more = self.as_slice();
        let mut new = Vec::with_capacity(alloc, old.len() + more.len())?;
        new.extend_from_slice(old)?;
        new.extend_from_slice(more)?;
        Bytes::from_vec(new)
    }

    /// The old bytes, and zeros up to the length; what lies behind it is left out. `NoMemory` where a
    /// growth was refused.
    pub fn of_length(alloc: Global, old: &[u8], length: u32) -> Result<Bytes, NoMemory>
        ensures { IfOk result (λ new. new ≡ of_that_length length old.now) }
    {
        let length = length as usize;
        let mut new = Vec::with_capacity(alloc, length)?;
        new.extend_from_slice(&old[..length.min(old.len())])?;
        new.resize(length, 0)?;
        Bytes::from_vec(new)
    }
}

// The bytes that a write leaves, in a block of their own.
fn overwritten(alloc: Global, old: &[u8], offset: usize, bytes: &[u8]) -> Result<Vec<u8>, NoMemory>
    requires { offset < 2 ^ 32 }
    ensures { IfOk result (λ new. new.items ≡ written offset bytes.now old.now) }
{
    let end = offset + bytes.len();
    let mut new = Vec::with_capacity(alloc, end.max(old.len()))?;
    new.extend_from_slice(&old[..offset.min(old.len())])?;
    new.resize(offset, 0)?;
    new.extend_from_slice(bytes)?;
    new.extend_from_slice(&old[end.min(old.len())..])?;
    Ok(new)
}
