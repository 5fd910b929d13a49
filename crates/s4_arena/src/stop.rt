//! Where a way back along a chain stands, and where it goes on.

ghost use Rattle.std.specs.Prelude.{◌≡◌, ◌+◌, ◌<◌, ◌≤◌, Some, nat_le};
ghost use Rattle.std.specs.List.{prefix_len};
ghost use Rattle.std.specs.List.Sorted.{IsNonDecreasingBy};
ghost use Rattle.s4_arena.specs.Leaps.{items_at};
ghost use Rattle.s4_arena.specs.Links.{link_at};
ghost use Rattle.s4_arena.specs.Spans.{span_at, next_index};

use crate::chain::Ends;
use crate::heap::Heap;
use crate::leap::{Leap, item_at, jump_at};
use crate::node::{Link, Node, prev_link};
use crate::spans::index_span;
use s4_store::Key;

/// An item of a chain, by its index and its node.
#[derive(Drop)]
pub(crate) struct Stop<T> {
    pub(crate) index: usize,
    pub(crate) at: Link<Leap<T>>,
}

impl<T> Stop<T> {
    ghost use Rattle.s4_arena.specs.Linked.{IsEnds};
    ghost use Rattle.s4_arena.specs.Leaps.{HasLeaps};

    // The item before one that isn't the oldest.
    fn older(self, heap: &Heap<Node<Leap<T>>>, chain: usize, ends: Ends<Leap<T>>) -> Stop<T>
        requires ends { IsEnds heap.now.cells chain ends }
        requires within { self.index < ends.len }
        requires stands { link_at heap.now.cells ends.oldest self.index ≡ Some self.at }
        requires some { 0 < self.index }
        ensures index { result.index + 1 ≡ self.index }
        ensures stands { link_at heap.now.cells ends.oldest result.index ≡ Some result.at }
    {
        let Some(at) = prev_link(heap, Some(self.at)) else {
            unreachable!();
        };
        let index = self.index - 1;
        Stop { index, at }
    }

    /// Where the way to an index goes on from a newer item: by its jump, unless that leads past the
    /// index, and else to the one before.
    pub(crate) fn nearer(
        self,
        heap: &Heap<Node<Leap<T>>>,
        chain: usize,
        ends: Ends<Leap<T>>,
        index: usize,
    ) -> Stop<T>
        requires ends { IsEnds heap.now.cells chain ends }
        requires leaps { HasLeaps heap.now.cells ends }
        requires within { self.index < ends.len }
        requires stands { link_at heap.now.cells ends.oldest self.index ≡ Some self.at }
        requires newer { index < self.index }
        ensures stands { link_at heap.now.cells ends.oldest result.index ≡ Some result.at }
        ensures goes { result.index ≡ next_index (span_at ends.first self.index) index self.index }
    {
        let span = index_span(ends.first, self.index);
        let left = self.index - index;
        if span > left {
            return self.older(heap, chain, ends);
        }
        let at = jump_at(heap, self.at);
        let further = self.index - span;
        Stop { index: further, at }
    }

    /// Where the search for a moment goes on from an item whose key is above it: by its jump, where
    /// that leads to another such, and else to the one before. A jump to an item that was dropped
    /// isn't followed.
    pub(crate) fn earlier<K: Key<T>>(
        self,
        heap: &Heap<Node<Leap<T>>>,
        chain: usize,
        ends: Ends<Leap<T>>,
        moment: u64,
    ) -> Stop<T>
        requires ends { IsEnds heap.now.cells chain ends }
        requires leaps { HasLeaps heap.now.cells ends }
        requires order { IsNonDecreasingBy K.key (items_at heap.now.cells ends) }
        requires within { self.index < ends.len }
        requires stands { link_at heap.now.cells ends.oldest self.index ≡ Some self.at }
        requires above { prefix_len (λ v. nat_le (K.key v) moment) (items_at heap.now.cells ends)
            ≤ self.index }
        requires some { 0 < self.index }
        ensures stands { link_at heap.now.cells ends.oldest result.index ≡ Some result.at }
        ensures goes { result.index ≡ next_index (span_at ends.first self.index)
            (prefix_len (λ v. nat_le (K.key v) moment) (items_at heap.now.cells ends)) self.index }
    {
        let span = index_span(ends.first, self.index);
        if span <= self.index {
            let at = jump_at(heap, self.at);
            if K::of(item_at(heap, at)) > moment {
                let index = self.index - span;
                return Stop { index, at };
            }
        }
        self.older(heap, chain, ends)
    }
}
