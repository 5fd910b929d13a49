//! More chains than a block has nodes, dropped from both ends.

ghost use Rattle.std.specs.Prelude.{All, IfOk};
ghost use Rattle.s4_store.specs.Chains.{IsOpen};

use crate::steps::{Row, Step, follow};
use s4_arena::Arena;
use s4_store::{Chain, NoMemory, Store};
use std::alloc::Global;
use std::test::Fail;

/// How many chains there are.
const COUNT: usize = 65;

// Opens so many chains.
fn opened(alloc: Global, arena: &mut Arena<u64>, count: usize) -> Result<Vec<Chain>, NoMemory>
    ensures { IfOk result (λ chains. All (IsOpen arena.new.chains) chains.items) }
{
    let mut chains = Vec::new(alloc);
    for _opened in 0..count {
        let chain = arena.open()?;
        chains.push(chain)?;
    }
    Ok(chains)
}

// The chains from `from` to before `to` have their item, its place in the list, and the others none.
fn add_left(rows: &mut Vec<Row>, from: usize, to: usize) -> Result<(), NoMemory> {
    for index in 0..COUNT {
        let is_left = from <= index && index < to;
        let newest = if is_left { Some(index as u64) } else { None };
        rows.push((index, Step::Newest(newest)))?;
        rows.push((index, Step::Len(usize::from(is_left))))?;
    }
    rows.push((0, Step::Nodes(2, to.saturating_sub(from))))?;
    Ok(())
}

// Each chain gets an item, and they are taken out in the order of the list, or from the last chain to
// the first.
fn rows_of(alloc: Global, is_forth: bool) -> Result<Vec<Row>, NoMemory> {
    let mut rows = Vec::new(alloc);
    for index in 0..COUNT {
        rows.push((index, Step::Reserve(1)))?;
        rows.push((index, Step::Push(index as u64)))?;
    }
    add_left(&mut rows, 0, COUNT)?;
    for dropped in 0..COUNT {
        let last = COUNT - dropped - 1;
        let index = if is_forth { dropped } else { last };
        rows.push((index, Step::DropOldest(Some(index as u64))))?;
        if is_forth {
            add_left(&mut rows, dropped + 1, COUNT)?;
        } else {
            add_left(&mut rows, 0, last)?;
        }
    }
    Ok(rows)
}

#[test]
fn many_chains_are_dropped_from_both_ends(rt: HostRuntime) -> Result<(), Fail> {
    let mut arena = Arena::new(rt.alloc());
    let chains = opened(rt.alloc(), &mut arena, COUNT)?;
    let forth = rows_of(rt.alloc(), true)?;
    follow(&rt, &mut arena, &chains, "forth", &forth);
    let back = rows_of(rt.alloc(), false)?;
    follow(&rt, &mut arena, &chains, "back", &back);
    Ok(())
}
