//! Bytes that a request brings or a reply gives.

ghost use Rattle.std.specs.Prelude.{◌≡◌, ◌-◌, ◌≤◌, length, take, drop, IfOk, IsTrue, ◌↔◌, []};
ghost use Rattle.std.specs.Arc.{arc_slice_items};

use crate::memory::NoMemory;
use std::alloc::Global;
use std::marker::Model;
use std::sync::ArcSlice;

/// A part of a block, from `start` up to, and without, `end`.
#[derive(Debug, Drop)]
struct Part {
    block: ArcSlice<u8>,
    start: u32,
    end: u32,
}

impl Model for Part {
    ghost use Rattle.std.specs.Prelude.{ℕ, List, ◌-◌, ◌≤◌, length, take, drop};
    ghost use Rattle.std.specs.Arc.{arc_slice_items};

    ghost Value = { List ℕ };

    ghost view = { λ p. take (p.end - p.start) (drop p.start (arc_slice_items p.block)) };

    ghost invariant = { λ p. (p.start ≤ p.end) × (p.end ≤ length (arc_slice_items p.block)) };
}

impl Part {
    fn as_slice(&self) -> &[u8]
        ensures { result.now ≡ self.now }
    {
        &self.block.as_slice()[self.start as usize..self.end as usize]
    }

    /// The bytes of this part from `start` up to, and without, `end`.
    fn part(&self, alloc: Global, start: usize, end: usize) -> Result<Bytes, NoMemory>
        requires { (start ≤ end) × (end ≤ length self.now) }
        ensures { IfOk result (λ part. part ≡ take (end - start) (drop start self.now)) }
    {
        let first = self.start as usize;
        part_of(&self.block, alloc, first + start, first + end)
    }

    fn copy(&self) -> Result<Part, NoMemory>
        ensures { IfOk result (λ part. part ≡ self.now) }
    {
        let block = self.block.clone()?;
        Ok(Part {
            block,
            start: self.start,
            end: self.end,
        })
    }
}

/// What a byte string holds of a block that others may hold too.
#[derive(Debug, Drop)]
enum Held {
    /// There is no block.
    Nothing,
    /// All of it.
    Whole(ArcSlice<u8>),
    /// At least half of it.
    Part(Part),
}

/// A string of bytes: what an object holds, or what is written to it. Its owners share one block of
/// memory, so that a copy takes none for the bytes.
#[derive(Debug)]
pub struct Bytes {
    held: Held,
}

impl Model for Bytes {
    ghost use Rattle.std.specs.Prelude.{ℕ, List};
    ghost use Rattle.s4_types.specs.Sharing.{held_bytes};

    ghost Value = { List ℕ };

    ghost view = { λ b. held_bytes b.held };
}

/// The bytes of a block from `start` up to, and without, `end`: shared where they are at least half of
/// it, else copied.
fn part_of(block: &ArcSlice<u8>, alloc: Global, start: usize, end: usize) -> Result<Bytes, NoMemory>
    requires { (start ≤ end) × (end ≤ length (arc_slice_items block.now)) }
    ensures { IfOk result (λ part. part ≡ take (end - start) (drop start (arc_slice_items block.now))) }
{
    let bytes = &block.as_slice()[start..end];
    let is_half = bytes.len() >= block.len().div_ceil(2);
    match (u32::try_from(start), u32::try_from(end)) {
        (Ok(start), Ok(end)) if is_half => {
            let block = block.clone()?;
            Ok(Bytes {
                held: Held::Part(Part { block, start, end }),
            })
        }
        _ => Bytes::from_slice(alloc, bytes),
    }
}

impl Bytes {
    /// No bytes. Takes no memory.
    pub fn new() -> Bytes
        ensures { result ≡ [] }
    {
        Bytes {
            held: Held::Nothing,
        }
    }

    /// These bytes, in the vector's own block; `NoMemory` where there is none for the count of its
    /// owners.
    pub fn from_vec(bytes: Vec<u8>) -> Result<Bytes, NoMemory>
        ensures { IfOk result (λ it. it ≡ bytes.items) }
    {
        if bytes.is_empty() {
            return Ok(Bytes::new());
        }
        let block = ArcSlice::from_vec(bytes)?;
        Ok(Bytes {
            held: Held::Whole(block),
        })
    }

    /// These bytes, copied to a block of their own, or `NoMemory` where there is none for it.
    pub fn from_slice(alloc: Global, bytes: &[u8]) -> Result<Bytes, NoMemory>
        ensures { IfOk result (λ it. it ≡ bytes.now) }
    {
        Bytes::from_vec(Vec::from_slice(alloc, bytes)?)
    }

    /// The bytes as a slice.
    pub fn as_slice(&self) -> &[u8]
        ensures { result.now ≡ self.now }
    {
        match &self.held {
            Held::Nothing => &[],
            Held::Whole(block) => block.as_slice(),
            Held::Part(part) => part.as_slice(),
        }
    }

    /// How many bytes these are.
    pub fn len(&self) -> usize
        ensures { result ≡ length self.now }
    {
        self.as_slice().len()
    }

    /// Whether there are none.
    pub fn is_empty(&self) -> bool
        ensures { IsTrue result ↔ (self.now ≡ []) }
    {
        self.as_slice().is_empty()
    }

    /// The bytes from `start` up to, and without, `end`. They share the block where they are at least
    /// half of it, and are copied to one of their own otherwise: so what a part keeps is at most twice
    /// its own size. `NoMemory` where a growth was refused.
    pub fn part(&self, alloc: Global, start: usize, end: usize) -> Result<Bytes, NoMemory>
        requires { (start ≤ end) × (end ≤ length self.now) }
        ensures { IfOk result (λ part. part ≡ take (end - start) (drop start self.now)) }
    {
        match &self.held {
            Held::Nothing => Ok(Bytes::new()),
            Held::Whole(block) => part_of(block, alloc, start, end),
            Held::Part(part) => part.part(alloc, start, end),
        }
    }

    /// One more owner of the bytes, or `NoMemory` where it can't be counted.
    pub fn copy(&self) -> Result<Bytes, NoMemory>
        ensures { IfOk result (λ bytes. bytes ≡ self.now) }
    {
        self.clone()
    }
}

// Written out: so whoever drops bytes proves nothing of what they hold.
impl Drop for Bytes {
    fn drop(self) {
        let Bytes { held } = self;
        match held {
            Held::Nothing => {}
            Held::Whole(block) => drop(block),
            Held::Part(part) => drop(part),
        }
    }
}

impl Clone for Bytes {
    ghost is_clone = { λ bytes copy. copy ≡ bytes };

    fn clone(&self) -> Result<Bytes, NoMemory> {
        let held = match &self.held {
            Held::Nothing => Held::Nothing,
            Held::Whole(block) => Held::Whole(block.clone()?),
            Held::Part(part) => Held::Part(part.copy()?),
        };
        Ok(Bytes { held })
    }
}

impl PartialEq for Bytes {
    ghost use Rattle.std.specs.Prelude.{nat_eq};
    ghost use Rattle.std.specs.Cmp.Lexicographic.{pointwise, nat_list_eq_equiv};
    ghost use Rattle.std.specs.Cmp.{partial_equiv_from_equiv};

    ghost eq = { λ a b. pointwise nat_eq a b };

    ghost laws = { partial_equiv_from_equiv nat_list_eq_equiv };

    fn eq(&self, other: &Bytes) -> bool {
        self.as_slice() == other.as_slice()
    }
}
