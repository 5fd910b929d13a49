//! The search along a chain for the newest item whose key is at most a moment.

ghost use Rattle.std.specs.Prelude.{◌≡◌, ℕ, ◌+◌, ◌*◌, ◌^◌, ◌<◌, ◌≤◌};
ghost use Rattle.std.specs.Option.{option_copied};
ghost use Rattle.std.specs.List.Sorted.{IsNonDecreasingBy};
ghost use Rattle.s4_store.specs.Keys.{last_by};
ghost use Rattle.s4_arena.specs.Leaps.{items_at};

use crate::chain::Ends;
use crate::heap::Heap;
use crate::leap::{Leap, item_at};
use crate::node::Node;
use crate::stop::Stop;
use s4_store::Key;

impl<T> Ends<Leap<T>> {
    ghost use Rattle.s4_arena.specs.Linked.{IsEnds};
    ghost use Rattle.s4_arena.specs.Leaps.{HasLeaps};

    /// The newest item whose key is at most the moment, where the keys never go down, and how many
    /// steps were taken to it from the newest of all. Each step looks at one node more, or two.
    pub(crate) fn newest_by<K: Key<T>>(
        self,
        heap: &Heap<Node<Leap<T>>>,
        chain: usize,
        moment: u64,
    ) -> (Option<&T>, usize)
        requires ends { IsEnds heap.now.cells chain self }
        requires leaps { HasLeaps heap.now.cells self }
        requires order { IsNonDecreasingBy K.key (items_at heap.now.cells self) }
        ensures found { option_copied result.0
            ≡ last_by K.key moment (items_at heap.now.cells self) }
        ensures few { (k : ℕ) → k ≤ 64 → self.first + self.len < 2 ^ k → result.1 ≤ 3 * k }
    {
        let Some(at) = self.newest else {
            return (None, 0);
        };
        let newest = item_at(heap, at);
        if K::of(newest) <= moment {
            return (Some(newest), 0);
        }
        let index = self.len - 1;
        let mut stop = Stop { index, at };
        let mut steps = 0;
        while stop.index > 0 {
            stop = stop.earlier::<K>(heap, chain, self, moment);
            steps += 1;
            let item = item_at(heap, stop.at);
            if K::of(item) <= moment {
                return (Some(item), steps);
            }
        }
        (None, steps)
    }
}
