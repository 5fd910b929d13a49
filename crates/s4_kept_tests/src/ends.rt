//! What becomes of the items that an arena has at its end.

ghost use Rattle.s4_store.specs.Chains.{IsOpen};

use s4_arena::Arena;
use s4_store::{Chain, NoMemory, Store};
use std::alloc::Global;
use std::cell::Cell;
use std::process::Abort;
use std::test::Fail;

/// An item that counts how many were dropped.
struct Counted<'a> {
    dropped: &'a Cell<u64>,
}

impl<'a> Drop for Counted<'a> {
    fn drop(self) {
        let Counted { dropped } = self;
        dropped.set(dropped.get().saturating_add(1));
    }
}

// Adds so many items.
fn add<'a>(
    arena: &mut Arena<Counted<'a>>,
    chain: Chain,
    dropped: &'a Cell<u64>,
    count: u64,
) -> Result<(), NoMemory>
    requires { IsOpen arena.old.chains chain }
{
    for _item in 0..count {
        arena.reserve(1)?;
        arena.push(chain, Counted { dropped });
    }
    Ok(())
}

// An arena ends with three chains of 70 items. The second has the row of one that was closed.
fn leave(rt: &impl Abort, alloc: Global, dropped: &Cell<u64>) -> Result<(), NoMemory> {
    let mut arena = Arena::new(alloc);
    let first = arena.open()?;
    add(&mut arena, first, dropped, 70)?;
    let empty = arena.open()?;
    assert_eq!(rt; arena.len(empty), 0);
    arena.close(empty);
    let second = arena.open()?;
    add(&mut arena, second, dropped, 70)?;
    let third = arena.open()?;
    add(&mut arena, third, dropped, 70)
}

#[test]
fn items_that_are_left_are_dropped_once(rt: HostRuntime) -> Result<(), Fail> {
    let dropped = Cell::new(0);
    leave(&rt, rt.alloc(), &dropped)?;
    assert_eq!(rt; dropped.get(), 210);
    Ok(())
}
