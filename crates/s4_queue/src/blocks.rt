//! Blocks of places, and where the items of a queue lie in them.

ghost use Rattle.std.specs.Prelude.{◌≡◌, ℕ, ◌+◌, ◌^◌, ◌≤◌, ◌<◌, OnOk};
ghost use Rattle.std.specs.VecDeque.{deque_len};
ghost use Rattle.s4_queue.specs.Blocks.{block_size, LiesAt, AreFilled, items_of};

use std::alloc::{AllocError, Global};
use std::collections::VecDeque;

/// How many places a block has.
pub const BLOCK: usize = 64;

/// The block of an item and its place there, where so many places of the first block were given up.
pub fn place_of(taken: usize, index: usize) -> (usize, usize)
    requires within { taken + index < 2 ^ 63 }
    ensures { LiesAt taken index result.0 result.1 }
{
    let place = taken + index;
    if place < BLOCK {
        (0, index)
    } else {
        (place / BLOCK, place % BLOCK)
    }
}

/// Adds empty blocks until there are so many. Where one is refused, those that were added stay.
pub fn add_blocks<T>(
    alloc: Global,
    blocks: &mut VecDeque<VecDeque<T>>,
    count: usize,
) -> Result<(), AllocError>
    ensures items { items_of blocks.new.items ≡ items_of blocks.old.items }
    ensures filled { (taken len : ℕ) → AreFilled taken len blocks.old.items
        → AreFilled taken len blocks.new.items }
    ensures grown { deque_len blocks.old ≤ deque_len blocks.new }
    ensures ok { OnOk result (count ≤ deque_len blocks.new) }
{
    while blocks.len() < count {
        blocks.reserve(1)?;
        let block = VecDeque::with_capacity(alloc, BLOCK)?;
        blocks.push_back_reserved(block);
    }
    Ok(())
}
