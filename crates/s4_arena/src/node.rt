//! The nodes of an arena, and how a node in the heap is changed.
ghost use Rattle.std.specs.Prelude.{◌≡◌, ℕ, ◌+◌, ◌<◌, [], ◌∷◌, ◌++◌, Some, None, ⊤, Option, IfSome};
ghost use Rattle.s4_arena.specs.Cells.{look, put};
ghost use Rattle.s4_arena.specs.Links.{node_at, next_of, prev_of};

use crate::heap::{Heap, Place};
use std::alloc::AllocError;
use std::marker::{Send, Sync};

/// Where a node lies.
pub struct Link<T> {
    pub(crate) ptr: *mut Node<T>,
}

impl<T> Clone for Link<T> {
    ghost is_clone = { λ x y. y ≡ x };

    ghost is_infallible = { λ _. ⊤ };

    fn clone(&self) -> Result<Link<T>, AllocError> {
        Ok(*self)
    }
}

impl<T> Copy for Link<T> {}

unsafe impl<T> Send for Link<T> {}

unsafe impl<T> Sync for Link<T> {}

impl<T> Link<T> {
    /// The place of the node.
    pub(crate) fn place(self) -> Place<Node<T>>
        ensures { result.ptr ≡ self.ptr }
    {
        Place { ptr: self.ptr }
    }
}

/// A node. A free one has no item, and `next` leads to the next free one.
#[derive(Drop)]
pub struct Node<T> {
    pub(crate) chain: usize,
    pub(crate) prev: Option<Link<T>>,
    pub(crate) next: Option<Link<T>>,
    pub(crate) item: Option<T>,
}

/// Gives a free node its item, and hands the next free one back.
pub(crate) fn fill<T: Drop>(
    heap: &mut Heap<Node<T>>,
    at: Link<T>,
    chain: usize,
    prev: Option<Link<T>>,
    item: T,
) -> Option<Link<T>>
    requires { (n : _) × (look heap.old.cells at.ptr ≡ Some n) × (n.item ≡ None) }
    ensures cells { heap.new.cells ≡ put heap.old.cells at.ptr (record { chain = chain; prev = prev; next = None; item = Some item }) }
    ensures next { (n : _) → look heap.old.cells at.ptr ≡ Some n → result ≡ n.next }
{
    let node = heap.get_mut(at.place());
    match node.item {
        Some(_) => unreachable!(),
        None => node.item = Some(item),
    }
    let next = node.next;
    node.chain = chain;
    node.prev = prev;
    node.next = None;
    next
}

/// Has the node lead on to another one, or to none.
pub(crate) fn set_next<T>(heap: &mut Heap<Node<T>>, at: Link<T>, next: Option<Link<T>>)
    requires { (n : _) × (look heap.old.cells at.ptr ≡ Some n) }
    ensures { (n : _) → look heap.old.cells at.ptr ≡ Some n
        → heap.new.cells ≡ put heap.old.cells at.ptr (record { chain = n.chain; prev = n.prev; next = next; item = n.item }) }
{
    heap.get_mut(at.place()).next = next;
}

/// Has the node lead back to another one, or to none.
pub(crate) fn set_prev<T>(heap: &mut Heap<Node<T>>, at: Link<T>, prev: Option<Link<T>>)
    requires { (n : _) × (look heap.old.cells at.ptr ≡ Some n) }
    ensures { (n : _) → look heap.old.cells at.ptr ≡ Some n
        → heap.new.cells ≡ put heap.old.cells at.ptr (record { chain = n.chain; prev = prev; next = n.next; item = n.item }) }
{
    heap.get_mut(at.place()).prev = prev;
}

/// Takes the item of a node out, which becomes the first free one, and tells what came after it.
pub(crate) fn vacate<T: Drop>(
    heap: &mut Heap<Node<T>>,
    at: Link<T>,
    free: Option<Link<T>>,
) -> (Option<T>, Option<Link<T>>)
    requires { (n : _) × (look heap.old.cells at.ptr ≡ Some n) }
    ensures { (n : _) → look heap.old.cells at.ptr ≡ Some n → (result.0 ≡ n.item) × (result.1 ≡ n.next)
        × (heap.new.cells ≡ put heap.old.cells at.ptr (record { chain = n.chain; prev = None; next = free; item = None })) }
{
    let node = heap.get_mut(at.place());
    let item = node.item.take();
    let next = node.next;
    node.prev = None;
    node.next = free;
    (item, next)
}

/// Where the node after one lies.
pub(crate) fn next_link<T>(heap: &Heap<Node<T>>, at: Option<Link<T>>) -> Option<Link<T>>
    requires { IfSome at (λ p. (n : _) × (look heap.now.cells p.ptr ≡ Some n)) }
    ensures { result ≡ next_of (node_at heap.now.cells at) }
{
    match at {
        None => None,
        Some(link) => heap.get(link.place()).next,
    }
}

/// Where the node before one lies.
pub(crate) fn prev_link<T>(heap: &Heap<Node<T>>, at: Option<Link<T>>) -> Option<Link<T>>
    requires { IfSome at (λ p. (n : _) × (look heap.now.cells p.ptr ≡ Some n)) }
    ensures { result ≡ prev_of (node_at heap.now.cells at) }
{
    match at {
        None => None,
        Some(link) => heap.get(link.place()).prev,
    }
}
