//! The item of a node, with its jump.

ghost use Rattle.std.specs.Prelude.{◌≡◌, ◌+◌, ◌-◌, ◌<◌, ◌≤◌, ◌^◌, Some, ⊤, slice_get};
ghost use Rattle.s4_arena.specs.Cells.{look, put};
ghost use Rattle.s4_arena.specs.Leaps.{goes_to, item_in, with_item};
ghost use Rattle.s4_arena.specs.Links.{places_from};
ghost use Rattle.s4_arena.specs.Spans.{span_at};

use crate::chain::Ends;
use crate::heap::Heap;
use crate::node::{Link, Node};
use std::alloc::AllocError;
use std::marker::{Send, Sync};
use std::mem;

/// Where the node of an older item lies. It owns nothing. Once that item was dropped, the node may be
/// free, or another item's.
pub struct Jump<T> {
    pub(crate) ptr: *mut Node<Leap<T>>,
}

impl<T> Clone for Jump<T> {
    ghost is_clone = { λ x y. y ≡ x };

    ghost is_infallible = { λ _. ⊤ };

    fn clone(&self) -> Result<Jump<T>, AllocError> {
        Ok(*self)
    }
}

impl<T> Copy for Jump<T> {}

unsafe impl<T> Send for Jump<T> {}

unsafe impl<T> Sync for Jump<T> {}

impl<T> Jump<T> {
    ghost use Rattle.s4_arena.specs.Linked.{IsEnds};
    ghost use Rattle.s4_arena.specs.Leaps.{HasLeaps};

    /// That to a node.
    fn to(at: Link<Leap<T>>) -> Jump<T>
        ensures { result.ptr ≡ at.ptr }
    {
        Jump { ptr: at.ptr }
    }

    /// That of the next item of a chain, which is to stand in the node at `at`. It goes to that node
    /// itself where no item is left as far back.
    pub(crate) fn of_next(
        heap: &Heap<Node<Leap<T>>>,
        chain: usize,
        ends: Ends<Leap<T>>,
        at: Link<Leap<T>>,
    ) -> Jump<T>
        requires ends { IsEnds heap.now.cells chain ends }
        requires leaps { HasLeaps heap.now.cells ends }
        requires small { ends.len + 1 < 2 ^ 64 }
        ensures { span_at ends.first ends.len ≤ ends.len
            → slice_get (places_from heap.now.cells ends.oldest ends.len)
            (ends.len - span_at ends.first ends.len) ≡ Some result.ptr }
    {
        let Some(newest) = ends.newest else {
            return Jump::to(at);
        };
        let span = ends.forest.next_span();
        if span == 1 {
            return Jump::to(newest);
        }
        if span > ends.len {
            return Jump::to(at);
        }
        Jump::to(jump_at(heap, jump_at(heap, newest)))
    }
}

/// An item, and a jump to an older one of its chain, as far back as the item's number says. Where
/// none was left there, it leads to the item's own node.
#[derive(Drop)]
pub struct Leap<T> {
    pub(crate) jump: Jump<T>,
    pub(crate) item: T,
}

/// The item of what was taken out of a node.
pub(crate) fn item_of<T>(leap: Option<Leap<T>>) -> Option<T>
    ensures { result ≡ item_in leap }
{
    match leap {
        Some(leap) => Some(leap.item),
        None => None,
    }
}

/// The item of a node that has one.
pub(crate) fn item_at<T>(heap: &Heap<Node<Leap<T>>>, at: Link<Leap<T>>) -> &T
    requires { (n : _) × (l : _) × (look heap.now.cells at.ptr ≡ Some n) × (n.item ≡ Some l) }
    ensures { (n : _) (l : _) → look heap.now.cells at.ptr ≡ Some n → n.item ≡ Some l
        → l.item ≡ result.now }
{
    match &heap.get(at.place()).item {
        Some(leap) => &leap.item,
        None => unreachable!(),
    }
}

/// Where the jump of a node's item goes.
pub(crate) fn jump_at<T>(heap: &Heap<Node<Leap<T>>>, at: Link<Leap<T>>) -> Link<Leap<T>>
    requires { (n : _) × (l : _) × (look heap.now.cells at.ptr ≡ Some n) × (n.item ≡ Some l) }
    ensures { (n : _) (l : _) → look heap.now.cells at.ptr ≡ Some n → n.item ≡ Some l
        → result ≡ goes_to l }
{
    match &heap.get(at.place()).item {
        Some(leap) => Link { ptr: leap.jump.ptr },
        None => unreachable!(),
    }
}

/// Puts an item in the place of a node's, and gives that other one. The jump stays.
pub(crate) fn set_item<T: Drop>(heap: &mut Heap<Node<Leap<T>>>, at: Link<Leap<T>>, item: T) -> T
    requires { (n : _) × (l : _) × (look heap.old.cells at.ptr ≡ Some n) × (n.item ≡ Some l) }
    ensures { (n : _) (l : _) → look heap.old.cells at.ptr ≡ Some n → n.item ≡ Some l
        → (l.item ≡ result) × (heap.new.cells ≡ put heap.old.cells at.ptr (record {
          chain = n.chain;
          prev = n.prev;
          next = n.next;
          item = Some (with_item l item);
        })) }
{
    match &mut heap.get_mut(at.place()).item {
        Some(leap) => mem::replace(&mut leap.item, item),
        None => unreachable!(),
    }
}
