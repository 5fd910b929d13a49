//! The queue.

ghost use Rattle.std.specs.Prelude.{◌≡◌, ◌+◌, ◌-◌, ◌<◌, ◌≤◌, ◌^◌, ◌∷◌, ◌++◌, ◌==◌, [], Bool, true, false, length, IfSome, IfNone, OnSome, IsOk, OnOk, OnErr, slice_get, slice_index_or, slice_set};
ghost use Rattle.std.specs.Option.{option_copied};
ghost use Rattle.std.specs.Fn.{ComputesKey};
ghost use Rattle.std.specs.List.{insert};
ghost use Rattle.std.specs.List.Sorted.{IsPartitionedBy, IsPartitionPoint};

use crate::blocks::{BLOCK, add_blocks, place_of};
use std::alloc::{AllocError, Global};
use std::collections::VecDeque;
use std::marker::Model;
use std::ops::Index;

/// How many items a queue has room for at most. No machine has memory for as many.
const MOST: usize = 1 << 62;

/// A queue: what is put first is taken first. Its items lie in blocks, so none moves as the queue
/// grows. Each item that is taken leaves room for another.
#[derive(Drop)]
pub struct Queue<T> {
    alloc: Global,
    blocks: VecDeque<VecDeque<T>>,
    // How many items of the first block were taken. Their places serve again once all of its are
    // free: then it becomes the last block. Until then a block more than is filled makes up for them.
    taken: usize,
    len: usize,
    room: usize,
}

impl<T> Model for Queue<T> {
    ghost use Rattle.s4_queue.specs.Contents.{Contents};

    ghost Value = { Contents T };

    ghost use Rattle.s4_queue.specs.Blocks.{IsLaid, items_of};

    ghost view = { λ q. record { items = items_of q.blocks.items; room = q.room } };

    ghost invariant = { λ q. IsLaid q.blocks.items q.taken q.len q.room };
}

impl<T: Drop> Queue<T> {
    /// No items. Takes no memory.
    pub fn new(alloc: Global) -> Queue<T>
        ensures items { result.items ≡ [] }
        ensures room { result.room ≡ 0 }
    {
        Queue {
            alloc,
            blocks: VecDeque::new(alloc),
            taken: 0,
            len: 0,
            room: 0,
        }
    }

    /// How many items wait.
    pub fn len(&self) -> usize
        ensures len { result ≡ length self.now.items }
        ensures within { result + self.now.room ≤ 2 ^ 62 }
    {
        self.len
    }

    /// Whether none waits.
    pub fn is_empty(&self) -> bool
        ensures { result ≡ (length self.now.items == 0) }
    {
        self.len == 0
    }

    /// How many more items can be put without memory.
    pub fn room(&self) -> usize
        ensures room { result ≡ self.now.room }
        ensures within { result ≤ 2 ^ 62 }
    {
        self.room
    }

    /// Makes room for so many more items. Where there is such room nothing changes.
    pub fn reserve(&mut self, more: usize) -> Result<(), AllocError>
        ensures ok { OnOk result (more ≤ self.new.room) }
        ensures there { more ≤ self.old.room → IsOk result }
        ensures still { more ≤ self.old.room → self.new ≡ self.old }
        ensures items { self.new.items ≡ self.old.items }
        ensures grown { self.old.room ≤ self.new.room }
        ensures err { OnErr result (self.new ≡ self.old) }
    {
        if more <= self.room {
            return Ok(());
        }
        if more > MOST - self.len {
            return Err(AllocError);
        }
        let blocks = (self.len + more).div_ceil(BLOCK) + 1;
        add_blocks(self.alloc, &mut self.blocks, blocks)?;
        self.room = more;
        Ok(())
    }

    /// Puts an item behind the others. Takes no memory.
    pub fn push(&mut self, item: T)
        requires { 0 < self.old.room }
        ensures items { self.new.items ≡ self.old.items ++ item ∷ [] }
        ensures room { self.new.room + 1 ≡ self.old.room }
    {
        let (block, _) = place_of(self.taken, self.len);
        self.blocks[block].push_back_reserved(item);
        self.len += 1;
        self.room -= 1;
    }

    /// Takes the first item, and leaves its room to another.
    pub fn pop(&mut self) -> Option<T>
        ensures taken { IfSome result (λ item. self.old.items ≡ item ∷ self.new.items) }
        ensures room { OnSome result (self.new.room ≡ self.old.room + 1) }
        ensures none { IfNone result (self.old.items ≡ []) }
        ensures still { IfNone result (self.new ≡ self.old) }
    {
        if self.len == 0 {
            return None;
        }
        let item = self.blocks[0].pop_front();
        self.len -= 1;
        self.room += 1;
        self.taken += 1;
        if self.taken == BLOCK {
            self.blocks.rotate_left(1);
            self.taken = 0;
        }
        item
    }

    /// The item of that index: the first has index 0.
    pub fn get(&self, index: usize) -> Option<&T>
        ensures { option_copied result ≡ slice_get self.now.items index }
    {
        if index >= self.len {
            return None;
        }
        let (block, place) = place_of(self.taken, index);
        self.blocks[block].get(place)
    }

    /// The first item.
    pub fn front(&self) -> Option<&T>
        ensures { option_copied result ≡ slice_get self.now.items 0 }
    {
        self.get(0)
    }

    /// The last item.
    pub fn back(&self) -> Option<&T>
        ensures { option_copied result ≡ slice_get self.now.items (length self.now.items - 1) }
    {
        if self.len == 0 {
            return None;
        }
        self.get(self.len - 1)
    }

    /// Puts an item in the place of another.
    pub fn set(&mut self, index: usize, item: T)
        requires { index < length self.old.items }
        ensures items { self.new.items ≡ slice_set self.old.items index item }
        ensures room { self.new.room ≡ self.old.room }
    {
        let (block, place) = place_of(self.taken, index);
        self.blocks[block][place] = item;
    }

    /// Puts an item before the one of that index, or behind all. Those behind it move by a place.
    /// Takes no memory.
    pub fn insert(&mut self, index: usize, item: T)
    where
        T: Copy,
        requires within { index ≤ length self.old.items }
        requires room { 0 < self.old.room }
        ensures items { self.new.items ≡ insert self.old.items index item }
        ensures room { self.new.room + 1 ≡ self.old.room }
    {
        let mut free = self.len();
        self.push(item);
        while free > index {
            let before = *self.get(free - 1).unwrap();
            self.set(free, before);
            free -= 1;
        }
        self.set(index, item);
    }

    /// How many items come before the first that doesn't pass the test, where none passes behind
    /// one that doesn't. It looks at as many as their number has binary digits, and one.
    pub fn partition_point<P: FnMut(&T) -> bool>(&self, mut pred: P) -> usize
        requires { P.IsAlwaysCallable pred }
        ensures bound { result ≤ length self.now.items }
        ensures partitioned { (p : T → Bool) → ComputesKey P.FnMut p pred
            → IsPartitionedBy p self.now.items
            → IsPartitionPoint (λ y. p y ≡ true) (λ y. p y ≡ false) self.now.items result }
    {
        let mut size = self.len();
        if size == 0 {
            return 0;
        }
        let mut base = 0;
        while size > 1 {
            let half = size / 2;
            let mid = base + half;
            if pred(self.get(mid).unwrap()) {
                base = mid;
                size -= half;
            } else {
                size -= half;
            }
        }
        if pred(self.get(base).unwrap()) {
            base + 1
        } else {
            base
        }
    }
}

impl<T: Drop> Index<usize> for Queue<T> {
    type Output = T;

    ghost can_index = { λ q i. i < length q.items };

    ghost index_gives = { λ q i item. item ≡ slice_index_or q.items i item };

    /// The item of that index, which is there.
    fn index(&self, index: usize) -> &T
        requires { index < length self.now.items }
        ensures { result.now ≡ slice_index_or self.now.items index result.now }
    {
        self.get(index).unwrap()
    }
}
