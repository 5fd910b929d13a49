//! Room for 200 items more in an arena. Where a block is refused, all is as before.

ghost use Rattle.s4_store.specs.Chains.{IsOpen};

use crate::calls::case::Case;
use s4_arena::Arena;
use s4_store::{Chain, NoMemory, Store};
use std::io;

pub fn reserve(case: &mut Case, items: u64, before: u64, after: u64) -> io::Result<()> {
    let mut arena = Arena::new(case.alloc());
    let chain = arena.open()?;
    add_items(&mut arena, chain, items)?;
    check_reserve(case, &mut arena, chain, items, before, after)?;
    Ok(())
}

// Adds the items from 0 to before `count`.
fn add_items(arena: &mut Arena<u64>, chain: Chain, count: u64) -> Result<(), NoMemory>
    requires { IsOpen arena.old.chains chain }
    ensures { IsOpen arena.new.chains chain }
{
    for item in 0..count {
        arena.reserve(1)?;
        arena.push(chain, item);
    }
    Ok(())
}

// Asks for room, and asks again where it is refused.
fn check_reserve(
    case: &mut Case,
    arena: &mut Arena<u64>,
    chain: Chain,
    items: u64,
    before: u64,
    after: u64,
) -> Result<(), NoMemory>
    requires { IsOpen arena.old.chains chain }
{
    check_stand(case, arena, chain, items, before);
    case.begins();
    let reserved = arena.reserve(200);
    case.ends();
    if reserved.is_err() {
        case.refuse_by_error();
        check_stand(case, arena, chain, items, before);
        arena.reserve(200)?;
    }
    case.check(arena.room() >= 200, "there is no room for 200 items");
    check_stand(case, arena, chain, items, after);
    Ok(())
}

// That an arena has so many blocks, whose nodes have an item or are room for one; and that its one
// chain has the items from 0 on.
fn check_stand(case: &mut Case, arena: &Arena<u64>, chain: Chain, items: u64, blocks: u64)
    requires { IsOpen arena.now.chains chain }
{
    let nodes = (arena.room() as u64).checked_add(arena.used() as u64);
    let has_nodes = arena.blocks() == blocks && nodes == blocks.checked_mul(64);
    case.check(has_nodes, "there are other blocks or nodes");
    let mut left = items;
    let mut is_same = true;
    for item in arena.walk(chain) {
        left = left.wrapping_sub(1);
        is_same = is_same && *item == left;
    }
    case.check(is_same && left == 0, "there are other items");
}
