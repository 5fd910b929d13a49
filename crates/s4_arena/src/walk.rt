//! Going over a chain from its newest item to its oldest.

ghost use Rattle.std.specs.Prelude.{◌≡◌, length};
ghost use Rattle.std.specs.Iterator.{at_most};
ghost use Rattle.std.specs.Map.Iter.{TakesFirst, deref};

use crate::chain::Ends;
use crate::heap::Heap;
use crate::leap::{Leap, item_at};
use crate::node::{Link, Node, prev_link};
use std::marker::Model;

/// The items of a chain that a walk has yet to give, from the newest to the oldest. See
/// docs/ARCHITECTURE.md, "The arena".
#[derive(Drop)]
pub struct Walk<'a, T> {
    pub(crate) heap: &'a Heap<Node<Leap<T>>>,
    pub(crate) chain: usize,
    pub(crate) ends: Ends<Leap<T>>,
    pub(crate) at: Option<Link<Leap<T>>>,
    pub(crate) left: usize,
}

impl<'a, T> Model for Walk<'a, T> {
    ghost use Rattle.std.specs.Prelude.{List};
    ghost use Rattle.s4_arena.specs.Walked.{to_come, IsWalk};

    ghost Value = { List T };

    ghost view = { λ a. to_come a.heap.now.cells a.ends a.left };

    ghost invariant = { λ a. IsWalk a.heap.now.cells a.chain a.ends a.at a.left };
}

impl<'a, T> Iterator for Walk<'a, T> {
    type Item = &'a T;

    ghost next_gives = { TakesFirst deref };

    ghost remaining = { λ s. at_most (length s) };

    fn next(&mut self) -> Option<&'a T> {
        let Some(link) = self.at else {
            return None;
        };
        let heap = self.heap;
        self.at = prev_link(heap, Some(link));
        self.left -= 1;
        Some(item_at(heap, link))
    }
}
