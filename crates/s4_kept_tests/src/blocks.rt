//! How many blocks there are: room for more items than a block has nodes, what is left where a block
//! is refused, and chains that are used in rounds.

ghost use Rattle.std.specs.Prelude.{OnOk};
ghost use Rattle.s4_store.specs.Chains.{IsOpen};

use crate::steps::has_nodes;
use s4_arena::Arena;
use s4_store::{Chain, NoMemory, Store};
use std::process::Abort;
use std::test::Fail;

/// That a chain has so many items, each one more than the one before it.
pub fn check_items(rt: &impl Abort, arena: &Arena<u64>, chain: Chain, first: u64, count: usize)
    requires { IsOpen arena.now.chains chain }
{
    assert_eq!(rt; arena.len(chain), count);
    let mut next = first.saturating_add(count as u64);
    for item in arena.walk(chain) {
        next = next.saturating_sub(1);
        assert_eq!(rt; *item, next);
    }
    assert_eq!(rt; next, first);
}

// That there are so many blocks, all of whose items are on one chain: those from 0 on, so many.
fn check_stand(rt: &impl Abort, arena: &Arena<u64>, chain: Chain, blocks: u64, count: usize)
    requires { IsOpen arena.now.chains chain }
{
    assert_eq!(rt; arena.used(), count);
    assert!(rt;
        has_nodes(arena, blocks, count),
        "{blocks} blocks with {count} items"
    );
    check_items(rt, arena, chain, 0, count);
}

// Adds the items from 0 to before `count`.
fn add_items(arena: &mut Arena<u64>, chain: Chain, count: u64) -> Result<(), NoMemory>
    requires { IsOpen arena.old.chains chain }
    ensures { OnOk result (IsOpen arena.new.chains chain) }
{
    for item in 0..count {
        arena.reserve(1)?;
        arena.push(chain, item);
    }
    Ok(())
}

/// In an arena with so many items and so many blocks, room for 200 more makes so many blocks.
const ROOMS: [(u64, u64, u64); 2] = [(0, 0, 4), (60, 1, 5)];

// Asks for that room. Where it is refused, all is as before, and it is asked for again.
fn check_room(
    rt: &impl Abort,
    arena: &mut Arena<u64>,
    (items, before, after): (u64, u64, u64),
) -> Result<(), Fail> {
    let chain = arena.open()?;
    add_items(arena, chain, items)?;
    let count = items as usize;
    check_stand(rt, arena, chain, before, count);
    if arena.reserve(200).is_err() {
        check_stand(rt, arena, chain, before, count);
        arena.reserve(200)?;
    }
    check_stand(rt, arena, chain, after, count);
    assert!(rt; arena.room() >= 200);
    arena.reserve(200)?;
    check_stand(rt, arena, chain, after, count);
    Ok(())
}

#[test]
fn room_takes_four_blocks_or_is_refused(rt: HostRuntime) -> Result<(), Fail> {
    for row in ROOMS {
        check_room(&rt, &mut Arena::new(rt.alloc()), row)?;
    }
    let mut arena = Arena::new(rt.alloc());
    let chain = arena.open()?;
    add_items(&mut arena, chain, 3)?;
    assert!(rt; arena.reserve(usize::MAX).is_err());
    check_stand(&rt, &arena, chain, 1, 3);
    Ok(())
}

// Adds an item and takes it out again, so many times.
fn rounds(arena: &mut Arena<u64>, chain: Chain, count: u64) -> Result<(), NoMemory>
    requires { IsOpen arena.old.chains chain }
    ensures { OnOk result (IsOpen arena.new.chains chain) }
{
    for _round in 0..count {
        arena.reserve(1)?;
        arena.push(chain, 1);
        arena.drop_oldest(chain);
    }
    Ok(())
}

// After the first reserve no round takes memory: so this passes whichever allocation is refused,
// from the one after it on.
#[test]
fn rounds_need_one_block(rt: HostRuntime) -> Result<(), Fail> {
    let mut arena: Arena<u64> = Arena::new(rt.alloc());
    assert!(rt; arena.used() == 0 && has_nodes(&arena, 0, 0));
    let chain = arena.open()?;
    check_stand(&rt, &arena, chain, 0, 0);
    arena.reserve(1)?;
    check_stand(&rt, &arena, chain, 1, 0);
    rounds(&mut arena, chain, 10000)?;
    check_stand(&rt, &arena, chain, 1, 0);
    Ok(())
}
