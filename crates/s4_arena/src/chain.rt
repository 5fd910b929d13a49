//! A chain of nodes, linked both ways.
ghost use Rattle.std.specs.Prelude.{◌≡◌, ℕ, ◌+◌, ◌-◌, ◌<◌, ◌^◌, Some, None, ⊤};
ghost use Rattle.s4_arena.specs.Cells.{look};
ghost use Rattle.s4_arena.specs.Forests.{IsForest};

use crate::forest::Forest;
use crate::heap::Heap;
use crate::node::{Link, Node, fill, set_next, set_prev, vacate};
use std::alloc::AllocError;

/// The two ends of an open chain, how many items it has, how many were dropped before the oldest, as
/// far as that number goes, and which trees the numbers of them all make up.
pub struct Ends<T> {
    pub(crate) oldest: Option<Link<T>>,
    pub(crate) newest: Option<Link<T>>,
    pub(crate) len: usize,
    pub(crate) first: usize,
    pub(crate) forest: Forest,
}

impl<T> Clone for Ends<T> {
    ghost is_clone = { λ x y. y ≡ x };

    ghost is_infallible = { λ _. ⊤ };

    fn clone(&self) -> Result<Ends<T>, AllocError> {
        Ok(*self)
    }
}

impl<T> Copy for Ends<T> {}

impl<T> Ends<T> {
    /// Those of a chain without items.
    pub(crate) fn new() -> Ends<T>
        ensures { result ≡ record {
          oldest = None;
          newest = None;
          len = 0;
          first = 0;
          forest = record { bits = 0 };
        } }
    {
        Ends {
            oldest: None,
            newest: None,
            len: 0,
            first: 0,
            forest: Forest::new(),
        }
    }
}

impl<T: Drop> Ends<T> {
    ghost use Rattle.s4_arena.specs.Linked.{IsEnds, Linked, Unlinked};

    /// Puts the first free node at the end, and hands the next free one back.
    pub(crate) fn link(
        self,
        heap: &mut Heap<Node<T>>,
        chain: usize,
        at: Link<T>,
        item: T,
    ) -> (Ends<T>, Option<Link<T>>)
        requires ends { IsEnds heap.old.cells chain self }
        requires free { (m : _) × (look heap.old.cells at.ptr ≡ Some m) × (m.item ≡ None) }
        requires small { self.len + 1 < 2 ^ 64 }
        requires forest { IsForest self.forest (self.first + self.len) }
        ensures linked { Linked heap.old.cells heap.new.cells chain self result.0 at item }
        ensures next { (m : _) → look heap.old.cells at.ptr ≡ Some m → result.1 ≡ m.next }
    {
        let free = fill(heap, at, chain, self.newest, item);
        let oldest = match self.newest {
            None => Some(at),
            Some(newest) => {
                set_next(heap, newest, Some(at));
                self.oldest
            }
        };
        let ends = Ends {
            oldest,
            newest: Some(at),
            len: self.len + 1,
            first: self.first,
            forest: self.forest.grown(),
        };
        (ends, free)
    }

    /// Takes the oldest item out. Its node comes to be the first free one, before `free`.
    pub(crate) fn unlink(
        self,
        heap: &mut Heap<Node<T>>,
        chain: usize,
        at: Link<T>,
        free: Option<Link<T>>,
    ) -> (Ends<T>, Option<T>)
        requires ends { IsEnds heap.old.cells chain self }
        requires oldest { self.oldest ≡ Some at }
        ensures { Unlinked heap.old.cells heap.new.cells chain self result.0 at free result.1 }
    {
        let (item, next) = vacate(heap, at, free);
        let first = self.first.saturating_add(1);
        match next {
            None => {
                let ends = Ends {
                    oldest: None,
                    newest: None,
                    len: self.len - 1,
                    first,
                    forest: self.forest,
                };
                (ends, item)
            }
            Some(second) => {
                set_prev(heap, second, None);
                let ends = Ends {
                    oldest: next,
                    newest: self.newest,
                    len: self.len - 1,
                    first,
                    forest: self.forest,
                };
                (ends, item)
            }
        }
    }
}
