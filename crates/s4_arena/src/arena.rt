//! The arena: its calls as a store, its blocks, and a walk along a chain.

ghost use Rattle.std.specs.Prelude.{◌≡◌, ℕ, ◌+◌, ◌-◌, ◌*◌, ◌/◌, ◌<◌, ◌≤◌, [], ◌∷◌, ◌++◌, length, drop, max, slice_get, slice_set, Some, None, IfOk, OnOk, OnErr, IsTrue, reverse, ⊤};
ghost use Rattle.std.specs.Map.Iter.{ShowsInOrder, deref};
ghost use Rattle.std.specs.FinMap as finmap;
ghost use Rattle.s4_store.specs.Chains.{Chains, items_of, IsOpen, StillOpen, item_count, oldest_of};
ghost use Rattle.s4_arena.specs.declared.arena.ArenaPlace.{ArenaPlace};
ghost use Rattle.s4_arena.specs.Seen.{open_count};
ghost use Rattle.s4_arena.specs.Standing.{IsPlace};

use crate::block::{Block, add_blocks, release_blocks};
use crate::chain::Ends;
use crate::heap::{Heap, Size};
use crate::leap::{Jump, Leap, item_at, item_of, set_item};
use crate::node::{Link, Node, next_link, prev_link};
use crate::table::{Row, closed_before, ends_at};
use crate::walk::Walk;
use s4_store::{Chain, Key, NoMemory, Store};
use std::alloc::{AllocError, Global};
use std::marker::Model;
use std_alloc::room::may_hold;

// An arena has fewer blocks than this, so that its nodes can be counted. No machine has so many.
const MOST_BLOCKS: usize = 1 << 57;

/// A store whose items stand in nodes that lie in blocks of 64.
///
/// A chain's nodes are linked both ways, so each step along it is O(1), and each has a jump further
/// back, so an item is found by its index or a key in O(log n) steps. Free nodes are a stack. At the
/// arena's end all items are dropped and all blocks given back. It may go to another thread where its
/// items may. See docs/ARCHITECTURE.md, "The arena".
pub struct Arena<T> {
    alloc: Global,
    heap: Heap<Node<Leap<T>>>,
    size: Size<Node<Leap<T>>>,
    blocks: Vec<Block<Leap<T>>>,
    rows: Vec<Row<Leap<T>>>,
    free: Option<Link<Leap<T>>>,
    room: usize,
    used: usize,
    closed: Option<usize>,
}

impl<T> Model for Arena<T> {
    ghost use Rattle.std.specs.Prelude.{length};
    ghost use Rattle.s4_arena.specs.Arena.{IsWhole};
    ghost use Rattle.s4_arena.specs.Added.{IsDeed};
    ghost use Rattle.s4_arena.specs.Seen.{Seen, seen, seen_code};

    ghost Value = { Seen T };

    ghost coded = { seen_code T.code };

    ghost view = { λ a. seen a.heap.cells a.rows.items a.room (length a.blocks.items) };

    ghost invariant = { λ a. IsWhole a.size.bytes (λ b. b.place.ptr)
        (IsDeed a.alloc) a.blocks.items a.heap.cells a.free a.room a.used a.rows.items a.closed };
}

/// Where an item of an arena stands: its chain, its index, and its node. It is good for the arena that
/// gave it, until the chains change. See docs/ARCHITECTURE.md, "The store".
pub struct ArenaPlace<T> {
    chain: Chain,
    index: usize,
    at: Link<Leap<T>>,
}

impl<T> Clone for ArenaPlace<T> {
    ghost is_clone = { λ x y. y ≡ x };

    ghost is_infallible = { λ _. ⊤ };

    fn clone(&self) -> Result<ArenaPlace<T>, AllocError> {
        Ok(ArenaPlace {
            chain: self.chain,
            index: self.index,
            at: self.at,
        })
    }
}

impl<T> Copy for ArenaPlace<T> {}

impl<T> Arena<T> {
    /// An arena with no open chain and no block. It takes its memory from `alloc`, and none yet.
    pub fn new(alloc: Global) -> Arena<T>
        ensures chains { result.chains ≡ finmap.empty }
        ensures room { result.room ≡ 0 }
        ensures blocks { result.blocks ≡ 0 }
        ensures rows { result.rows ≡ 0 }
    {
        Arena {
            alloc,
            heap: Heap::new(),
            size: Size::new(),
            blocks: Vec::new(alloc),
            rows: Vec::new(alloc),
            free: None,
            room: 0,
            used: 0,
            closed: None,
        }
    }

    /// How many blocks of 64 nodes it has. Each node has an item, or is room for one.
    pub fn blocks(&self) -> u64
        ensures blocks { result ≡ self.now.blocks }
        ensures nodes { self.now.room + item_count self.now.chains ≡ 64 * result }
    {
        self.blocks.len() as u64
    }

    /// Goes over the items of an open chain, from the newest to the oldest, and ends there. Each step
    /// is O(1), and it takes no memory.
    pub fn walk(&self, chain: Chain) -> Walk<'_, T>
        requires { IsOpen self.now.chains chain }
        ensures items { result ≡ reverse (items_of self.now.chains chain) }
        ensures runs { ShowsInOrder (deref {X = T}) }
    {
        let number = chain.number();
        let ends = ends_at(&self.rows, number);
        Walk {
            heap: &self.heap,
            chain: number,
            ends,
            at: ends.newest,
            left: ends.len,
        }
    }
}

impl<T: Drop> Store<T> for Arena<T> {
    ghost use Rattle.s4_arena.specs.Standing.{IsPlace};

    type Place = ArenaPlace<T>;

    ghost chain_at = { λ place. place.chain };

    ghost index_at = { λ place. place.index };

    ghost is_place = { λ store place. IsPlace store place };

    ghost chains = { λ store. store.chains };

    ghost room = { λ store. store.room };

    /// Opens a new chain without items. It has the row of a chain that was closed, where there is one:
    /// so rows are as many as the greatest number of chains that were open at once.
    fn open(&mut self) -> Result<Chain, NoMemory>
        ensures fresh { IfOk result (λ chain. finmap.get self.old.chains chain ≡ None) }
        ensures opened { IfOk result (λ chain. self.new.chains ≡ finmap.insert self.old.chains chain []) }
        ensures is_open { IfOk result (λ chain. IsOpen self.new.chains chain) }
        ensures refused { OnErr result (self.new.chains ≡ self.old.chains) }
        ensures still { StillOpen self.old.chains self.new.chains }
        ensures room { self.new.room ≡ self.old.room }
        ensures rows { OnOk result (self.new.rows ≡ max self.old.rows (open_count self.new.chains)) }
        ensures no_row { OnErr result (self.new.rows ≡ self.old.rows) }
    {
        if let Some(number) = self.closed {
            self.closed = closed_before(&self.rows, number);
            self.rows[number] = Row::Open(Ends::new());
            return Ok(Chain::new(number));
        }
        let number = self.rows.len();
        self.rows.push(Row::Open(Ends::new()))?;
        Ok(Chain::new(number))
    }

    /// Makes room for so many pushes in all. Where there is room, it changes nothing. Otherwise it
    /// takes the least number of blocks that gives the room. Where one is refused, those that this
    /// call took are given back, and all is as before.
    fn reserve(&mut self, count: usize) -> Result<(), NoMemory>
        ensures reserved { OnOk result (count ≤ self.new.room) }
        ensures grown { self.old.room ≤ self.new.room }
        ensures refused { OnErr result (self.new.room ≡ self.old.room) }
        ensures chains { self.new.chains ≡ self.old.chains }
        ensures still { StillOpen self.old.chains self.new.chains }
        ensures least { OnOk result (self.new.blocks ≡ self.old.blocks + (count - self.old.room + 63) / 64) }
        ensures none { OnErr result (self.new.blocks ≡ self.old.blocks) }
        ensures rows { self.new.rows ≡ self.old.rows }
    {
        if count <= self.room {
            return Ok(());
        }
        let more = (count - self.room - 1) / 64 + 1;
        if more >= MOST_BLOCKS - self.blocks.len() || !may_hold::<Node<Leap<T>>>(64) {
            return Err(AllocError);
        }
        self.size.tell();
        let first = add_blocks(
            &self.alloc,
            &mut self.heap,
            &self.size,
            &mut self.blocks,
            self.free,
            more,
        )?;
        self.free = first;
        self.room += 64 * more;
        Ok(())
    }

    fn room(&self) -> usize {
        self.room
    }

    fn push(&mut self, chain: Chain, item: T)
        requires open { IsOpen self.old.chains chain }
        requires room { 0 < self.old.room }
        ensures chains { self.new.chains ≡ finmap.insert self.old.chains chain
            (items_of self.old.chains chain ++ item ∷ []) }
        ensures still { StillOpen self.old.chains self.new.chains }
        ensures room { self.new.room + 1 ≡ self.old.room }
        ensures rows { self.new.rows ≡ self.old.rows }
    {
        let number = chain.number();
        let ends = ends_at(&self.rows, number);
        let Some(at) = self.free else {
            unreachable!();
        };
        let jump = Jump::of_next(&self.heap, number, ends, at);
        let (ends, free) = ends.link(&mut self.heap, number, at, Leap { jump, item });
        self.free = free;
        self.rows[number] = Row::Open(ends);
        self.room -= 1;
        self.used += 1;
    }

    fn len(&self, chain: Chain) -> usize {
        ends_at(&self.rows, chain.number()).len
    }

    fn get(&self, chain: Chain, index: usize) -> &T {
        let number = chain.number();
        let ends = ends_at(&self.rows, number);
        let at = ends.find(&self.heap, number, index);
        item_at(&self.heap, at)
    }

    fn newest(&self, chain: Chain) -> Option<&T> {
        let ends = ends_at(&self.rows, chain.number());
        match ends.newest {
            Some(at) => Some(item_at(&self.heap, at)),
            None => None,
        }
    }

    fn newest_place(&self, chain: Chain) -> Option<ArenaPlace<T>> {
        let ends = ends_at(&self.rows, chain.number());
        let Some(at) = ends.newest else {
            return None;
        };
        let index = ends.len - 1;
        Some(ArenaPlace { chain, index, at })
    }

    fn older(&self, place: ArenaPlace<T>) -> Option<ArenaPlace<T>> {
        let Some(at) = prev_link(&self.heap, Some(place.at)) else {
            return None;
        };
        let index = place.index - 1;
        Some(ArenaPlace {
            chain: place.chain,
            index,
            at,
        })
    }

    fn oldest_place(&self, chain: Chain) -> Option<ArenaPlace<T>> {
        let ends = ends_at(&self.rows, chain.number());
        let Some(at) = ends.oldest else {
            return None;
        };
        Some(ArenaPlace {
            chain,
            index: 0,
            at,
        })
    }

    fn newer(&self, place: ArenaPlace<T>) -> Option<ArenaPlace<T>> {
        let Some(at) = next_link(&self.heap, Some(place.at)) else {
            return None;
        };
        let index = place.index + 1;
        Some(ArenaPlace {
            chain: place.chain,
            index,
            at,
        })
    }

    fn item(&self, place: ArenaPlace<T>) -> &T {
        item_at(&self.heap, place.at)
    }

    /// The search follows jumps, and takes O(log n) steps.
    fn newest_by<K: Key<T>>(&self, chain: Chain, moment: u64) -> Option<&T> {
        let number = chain.number();
        let ends = ends_at(&self.rows, number);
        let (found, _steps) = ends.newest_by::<K>(&self.heap, number, moment);
        found
    }

    fn set_at(&mut self, place: ArenaPlace<T>, item: T) -> T
        requires { IsPlace self.old place }
        ensures old { slice_get (items_of self.old.chains place.chain) place.index ≡ Some result }
        ensures chains { self.new.chains ≡ finmap.insert self.old.chains place.chain
            (slice_set (items_of self.old.chains place.chain) place.index item) }
        ensures still { StillOpen self.old.chains self.new.chains }
        ensures places { (other : ArenaPlace T) → IsPlace self.old other → IsPlace self.new other }
        ensures room { self.new.room ≡ self.old.room }
        ensures rows { self.new.rows ≡ self.old.rows }
    {
        set_item(&mut self.heap, place.at, item)
    }

    fn used(&self) -> usize {
        self.used
    }

    fn set(&mut self, chain: Chain, index: usize, item: T) -> T
        requires open { IsOpen self.old.chains chain }
        requires within { index < length (items_of self.old.chains chain) }
        ensures old { slice_get (items_of self.old.chains chain) index ≡ Some result }
        ensures chains { self.new.chains ≡ finmap.insert self.old.chains chain
            (slice_set (items_of self.old.chains chain) index item) }
        ensures still { StillOpen self.old.chains self.new.chains }
        ensures room { self.new.room ≡ self.old.room }
        ensures rows { self.new.rows ≡ self.old.rows }
    {
        let number = chain.number();
        let ends = ends_at(&self.rows, number);
        let at = ends.find(&self.heap, number, index);
        set_item(&mut self.heap, at, item)
    }

    fn drop_oldest(&mut self, chain: Chain) -> Option<T>
        requires { IsOpen self.old.chains chain }
        ensures oldest { result ≡ oldest_of (items_of self.old.chains chain) }
        ensures chains { self.new.chains ≡ finmap.insert self.old.chains chain
            (drop 1 (items_of self.old.chains chain)) }
        ensures still { StillOpen self.old.chains self.new.chains }
        ensures room { self.new.room + length (drop 1 (items_of self.old.chains chain))
            ≡ self.old.room + length (items_of self.old.chains chain) }
        ensures rows { self.new.rows ≡ self.old.rows }
    {
        let number = chain.number();
        let ends = ends_at(&self.rows, number);
        let Some(at) = ends.oldest else {
            return None;
        };
        let (ends, leap) = ends.unlink(&mut self.heap, number, at, self.free);
        self.free = Some(at);
        self.rows[number] = Row::Open(ends);
        self.room += 1;
        self.used -= 1;
        item_of(leap)
    }

    fn close(&mut self, chain: Chain)
        requires open { IsOpen self.old.chains chain }
        requires empty { items_of self.old.chains chain ≡ [] }
        ensures chains { self.new.chains ≡ finmap.remove self.old.chains chain }
        ensures room { self.new.room ≡ self.old.room }
        ensures rows { self.new.rows ≡ self.old.rows }
    {
        let number = chain.number();
        self.rows[number] = Row::Closed(self.closed);
        self.closed = Some(number);
    }
}

impl<T: Drop> Arena<T> {
    // Drops all items.
    fn clear(&mut self) {
        for number in 0..self.rows.len() {
            if self.is_open(number) {
                self.clear_chain(Chain::new(number));
            }
        }
    }

    // Whether the chain of that number is open.
    fn is_open(&self, number: usize) -> bool
        ensures { IsTrue result → IsOpen self.now.chains number }
    {
        match self.rows.get(number) {
            Some(Row::Open(_)) => true,
            _ => false,
        }
    }

    // Drops the items of a chain.
    fn clear_chain(&mut self, chain: Chain)
        requires { IsOpen self.old.chains chain }
    {
        while let Some(_item) = self.drop_oldest(chain) {}
    }
}

impl<T> Arena<T> {
    // Gives all blocks back.
    fn release(self) {
        let Arena {
            alloc,
            heap,
            size,
            blocks,
            rows: _rows,
            free: _,
            room: _,
            used: _,
            closed: _,
        } = self;
        let mut heap = heap;
        let mut blocks = blocks;
        release_blocks(&alloc, &mut heap, &size, &mut blocks, 0);
    }
}

impl<T: Drop> Drop for Arena<T> {
    fn drop(mut self) {
        self.clear();
        self.release();
    }
}
