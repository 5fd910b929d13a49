//! The way along a chain to the item at an index.

ghost use Rattle.std.specs.Prelude.{◌≡◌, ℕ, ◌+◌, ◌*◌, ◌^◌, ◌<◌, ◌≤◌, Some};
ghost use Rattle.s4_arena.specs.Links.{link_at};

use crate::chain::Ends;
use crate::heap::Heap;
use crate::leap::Leap;
use crate::node::{Link, Node};
use crate::stop::Stop;

impl<T> Ends<Leap<T>> {
    ghost use Rattle.s4_arena.specs.Linked.{IsEnds};
    ghost use Rattle.s4_arena.specs.Leaps.{HasLeaps};

    /// Where the item with that index stands. The newest is told at once.
    pub(crate) fn find(
        self,
        heap: &Heap<Node<Leap<T>>>,
        chain: usize,
        index: usize,
    ) -> Link<Leap<T>>
        requires ends { IsEnds heap.now.cells chain self }
        requires leaps { HasLeaps heap.now.cells self }
        requires within { index < self.len }
        ensures { link_at heap.now.cells self.oldest index ≡ Some result }
    {
        match self.newest {
            Some(newest) if index == self.len - 1 => newest,
            _ => self.find_older(heap, chain, index),
        }
    }

    // Where an item stands that may not be the newest.
    #[inline(never)]
    fn find_older(self, heap: &Heap<Node<Leap<T>>>, chain: usize, index: usize) -> Link<Leap<T>>
        requires ends { IsEnds heap.now.cells chain self }
        requires leaps { HasLeaps heap.now.cells self }
        requires within { index < self.len }
        ensures { link_at heap.now.cells self.oldest index ≡ Some result }
    {
        match self.oldest {
            Some(oldest) if index == 0 => oldest,
            _ => self.reach(heap, chain, index).0,
        }
    }

    // Where it stands, and how many steps were taken to it from the newest item.
    fn reach(self, heap: &Heap<Node<Leap<T>>>, chain: usize, index: usize) -> (Link<Leap<T>>, usize)
        requires ends { IsEnds heap.now.cells chain self }
        requires leaps { HasLeaps heap.now.cells self }
        requires within { index < self.len }
        ensures found { link_at heap.now.cells self.oldest index ≡ Some result.0 }
        ensures few { (k : ℕ) → k ≤ 64 → self.first + self.len < 2 ^ k → result.1 ≤ 3 * k }
    {
        let Some(at) = self.newest else {
            unreachable!();
        };
        let last = self.len - 1;
        let mut stop = Stop { index: last, at };
        let mut steps = 0;
        while stop.index > index {
            stop = stop.nearer(heap, chain, self, index);
            steps += 1;
        }
        (stop.at, steps)
    }
}
