//! Each call of a store, on two chains that take turns, in a plain store and in an arena.

ghost use Rattle.s4_store.specs.Chains.{IsOpen};

use crate::blocks::check_items;
use crate::steps::{Blocks, Row, Step, follow};
use s4_arena::Arena;
use s4_store::{Chain, PlainStore, Store};
use std::process::Abort;
use std::test::Fail;

/// 10, 11 and 12 are added to the first chain, and 20 and 21 to the second.
const PUSHED: [Row; 7] = [
    (0, Step::Nodes(1, 0)),
    (0, Step::Push(10)),
    (1, Step::Push(20)),
    (0, Step::Push(11)),
    (1, Step::Push(21)),
    (0, Step::Push(12)),
    (0, Step::Nodes(1, 5)),
];

/// They are read. Then 25 is put in the place of the second chain's 20.
const REPLACED: [Row; 16] = [
    (0, Step::Used(5)),
    (0, Step::Len(3)),
    (1, Step::Len(2)),
    (0, Step::Get(0, 10)),
    (0, Step::Get(1, 11)),
    (0, Step::Get(2, 12)),
    (1, Step::Get(0, 20)),
    (1, Step::Get(1, 21)),
    (0, Step::Newest(Some(12))),
    (1, Step::Newest(Some(21))),
    (1, Step::Set(0, 25, 20)),
    (0, Step::Len(3)),
    (1, Step::Len(2)),
    (0, Step::Get(0, 10)),
    (1, Step::Get(0, 25)),
    (0, Step::Nodes(1, 5)),
];

/// The oldest item of each chain is taken out, and then all that the second chain still has.
const DROPPED: [Row; 12] = [
    (0, Step::DropOldest(Some(10))),
    (1, Step::DropOldest(Some(25))),
    (0, Step::Nodes(1, 3)),
    (1, Step::DropOldest(Some(21))),
    (1, Step::DropOldest(None)),
    (0, Step::Used(2)),
    (0, Step::Len(2)),
    (0, Step::Get(0, 11)),
    (0, Step::Newest(Some(12))),
    (1, Step::Newest(None)),
    (1, Step::Len(0)),
    (0, Step::Nodes(1, 2)),
];

/// All steps. At the end the second chain, which is empty, is closed, and a third one opened: it
/// isn't the first.
fn check_turns<S: Store<u64> + Blocks>(rt: &impl Abort, store: &mut S) -> Result<(), Fail> {
    let first = store.open()?;
    let second = store.open()?;
    assert_ne!(rt; first, second);
    store.reserve(5)?;
    assert!(rt; store.room() >= 5);
    let chains = [first, second];
    follow(rt, store, &chains, "pushed", &PUSHED);
    follow(rt, store, &chains, "replaced", &REPLACED);
    let room = store.room();
    follow(rt, store, &chains, "dropped", &DROPPED);
    assert_eq!(rt; room.checked_add(3), Some(store.room()));
    assert_eq!(rt; store.len(second), 0);
    store.close(second);
    assert_eq!(rt; store.used(), 2);
    let third = store.open()?;
    assert_ne!(rt; third, first);
    assert_eq!(rt; store.len(third), 0);
    Ok(())
}

#[test]
fn chains_take_turns(rt: HostRuntime) -> Result<(), Fail> {
    let mut store = PlainStore::new(rt.alloc());
    assert!(rt; store.reserve(usize::MAX).is_err());
    assert_eq!(rt; store.room(), 0);
    assert_eq!(rt; store.used(), 0);
    assert_eq!(rt; Chain::new(7).number(), 7);
    check_turns(&rt, &mut store)?;
    check_turns(&rt, &mut Arena::new(rt.alloc()))
}

/// The items at three places.
fn items_at<S: Store<u64>>(store: &S, a: S::Place, b: S::Place, c: S::Place) -> [u64; 3]
    requires a { S.is_place store.now a }
    requires b { S.is_place store.now b }
    requires c { S.is_place store.now c }
{
    [*store.item(a), *store.item(b), *store.item(c)]
}

/// Goes from the second chain's oldest item to its newest, and from the first chain's newest to its
/// oldest, where 31 is put in the place of the 11 between.
fn check_places<S: Store<u64>>(
    rt: &impl Abort,
    store: &mut S,
    first: Chain,
    second: Chain,
) -> Result<(), Fail>
    requires first { IsOpen (S.chains store.old) first }
    requires second { IsOpen (S.chains store.old) second }
{
    let oldest = store.oldest_place(second).ok_or("an oldest place")?;
    let newest = store.newer(oldest).ok_or("a newest place")?;
    let none = store.newer(newest);
    assert!(rt; none.is_none());
    assert_eq!(rt; *store.item(oldest), 20);
    assert_eq!(rt; *store.item(newest), 21);
    let newest = store.newest_place(first).ok_or("a newest place")?;
    let middle = store.older(newest).ok_or("a place before it")?;
    let oldest = store.older(middle).ok_or("an oldest place")?;
    assert!(rt; store.older(oldest).is_none());
    assert_eq!(rt; items_at(store, newest, middle, oldest), [12, 11, 10]);
    assert_eq!(rt; store.set_at(middle, 31), 11);
    assert_eq!(rt; items_at(store, newest, middle, oldest), [12, 31, 10]);
    Ok(())
}

#[test]
fn places_and_walks_go_from_item_to_item(rt: HostRuntime) -> Result<(), Fail> {
    let mut arena = Arena::new(rt.alloc());
    let first = arena.open()?;
    let second = arena.open()?;
    arena.reserve(5)?;
    follow(&rt, &mut arena, &[first, second], "pushed", &PUSHED);
    check_items(&rt, &arena, first, 10, 3);
    check_places(&rt, &mut arena, first, second)
}
