//! Blocks of nodes: taking them, their nodes all free, and giving them back.
ghost use Rattle.std.specs.Prelude.{◌≡◌, ℕ, ◌+◌, ◌*◌, ◌^◌, ◌<◌, ◌≤◌, [], ◌∷◌, ◌++◌, Some, None, List, length, take, map, IfOk, OnOk, OnErr};
ghost use Rattle.std.specs.List.{AllByRecursion};
ghost use Rattle.std.specs.Vec.Ownership.{FitsInBlock};
ghost use Rattle.s4_arena.specs.Arena.{in_blocks};
ghost use Rattle.std.specs.Mem.{type_size};
ghost use denote.RawPtr.{◌+ₚ◌};
ghost use Rattle.s4_arena.specs.Cells.{places, run, IsFresh};
ghost use Rattle.s4_arena.specs.contracts.node.Node.{the_row as node_row};
ghost use Rattle.s4_arena.specs.Links.{IsFree};
ghost use Rattle.s4_arena.specs.Added.{IsDeed, Added};

use crate::heap::{Deed, Fresh, Heap, Place, Size, allocate, deallocate};
use crate::node::{Link, Node};
use std::alloc::{AllocError, Global};

/// A block of nodes.
#[derive(Drop)]
pub struct Block<T> {
    pub(crate) place: Place<Node<T>>,
    pub(crate) deed: Deed<Node<T>, Global>,
}

/// Makes a free node, before `free`, in the first fresh place.
pub(crate) fn carve_free<T>(
    heap: &mut Heap<Node<T>>,
    fresh: Fresh<Node<T>>,
    free: Option<Link<T>>,
) -> (Link<T>, Fresh<Node<T>>)
    requires { 0 < fresh.left }
    ensures link { result.0.ptr ≡ fresh.ptr }
    ensures is_new { IsFresh fresh.ptr heap.old.cells }
    ensures cells { heap.new.cells ≡ heap.old.cells ++ (fresh.ptr, record { chain = 0; prev = None; next = free; item = None }) ∷ [] }
    ensures left { result.1.left + 1 ≡ fresh.left }
    ensures rest { result.1.ptr ≡ fresh.ptr +ₚ type_size (node_row T.row) }
{
    let node = Node {
        chain: 0,
        prev: None,
        next: free,
        item: None,
    };
    let (place, rest) = heap.carve(fresh, node);
    (Link { ptr: place.ptr }, rest)
}

/// Makes free nodes, before `first`, in so many fresh places, and tells the first free one.
pub(crate) fn carve_block<T>(
    heap: &mut Heap<Node<T>>,
    fresh: Fresh<Node<T>>,
    len: usize,
    first: Option<Link<T>>,
) -> Option<Link<T>>
    requires { fresh.left ≡ len }
    ensures free { (k : ℕ) → IsFree heap.old.cells first k → IsFree heap.new.cells result (k + len) }
    ensures more { (ns : _) × (heap.new.cells ≡ heap.old.cells ++ ns) }
    ensures places { places heap.new.cells ≡ places heap.old.cells ++ run (type_size (node_row T.row)) fresh.ptr len }
{
    let mut rest = fresh;
    let mut free = first;
    for i in 0..len {
        let (link, left) = carve_free(heap, rest, free);
        rest = left;
        free = Some(link);
    }
    free
}

/// Takes one block, whose nodes are all free, before `free`.
pub(crate) fn add_block<T>(
    alloc: &Global,
    heap: &mut Heap<Node<T>>,
    size: &Size<Node<T>>,
    blocks: &mut Vec<Block<T>>,
    free: Option<Link<T>>,
) -> Result<Option<Link<T>>, AllocError>
    requires { FitsInBlock (node_row T.row) 64 }
    ensures ok { IfOk result (λ next. Added size.now.bytes (λ b. b.place.ptr)
        (IsDeed alloc.now) heap.old.cells heap.new.cells blocks.old.items blocks.new.items free next 1) }
    ensures err { OnErr result ((heap.new.cells ≡ heap.old.cells) × (blocks.new.items ≡ blocks.old.items)) }
{
    blocks.reserve(1)?;
    let (place, fresh, deed) = allocate(alloc, 64)?;
    size.tell();
    blocks.push_reserved(Block { place, deed });
    Ok(carve_block(heap, fresh, 64, free))
}

/// Takes so many blocks, whose nodes are all free, before `free`, or none where one is refused.
pub(crate) fn add_blocks<T>(
    alloc: &Global,
    heap: &mut Heap<Node<T>>,
    size: &Size<Node<T>>,
    blocks: &mut Vec<Block<T>>,
    free: Option<Link<T>>,
    more: usize,
) -> Result<Option<Link<T>>, AllocError>
    requires node { FitsInBlock (node_row T.row) 64 }
    requires fits { 64 * size.now.bytes < 2 ^ 63 }
    requires placed { places heap.old.cells ≡ in_blocks size.now.bytes (map (λ b. b.place.ptr) blocks.old.items) }
    requires deeds { AllByRecursion (IsDeed alloc.now) blocks.old.items }
    ensures ok { IfOk result (λ next. Added size.now.bytes (λ b. b.place.ptr)
        (IsDeed alloc.now) heap.old.cells heap.new.cells blocks.old.items blocks.new.items free next more) }
    ensures err { OnErr result ((heap.new.cells ≡ heap.old.cells) × (blocks.new.items ≡ blocks.old.items)) }
{
    let before = blocks.len();
    let mut first = free;
    for _added in 0..more {
        match add_block(alloc, heap, size, blocks, first) {
            Ok(next) => {
                first = next;
            }
            Err(refused) => {
                release_blocks(alloc, heap, size, blocks, before);
                return Err(refused);
            }
        }
    }
    Ok(first)
}

/// Gives the newest blocks back, and keeps so many.
pub(crate) fn release_blocks<T>(
    alloc: &Global,
    heap: &mut Heap<Node<T>>,
    size: &Size<Node<T>>,
    blocks: &mut Vec<Block<T>>,
    keep: usize,
)
    requires placed { places heap.old.cells ≡ in_blocks size.now.bytes (map (λ b. b.place.ptr) blocks.old.items) }
    requires deeds { AllByRecursion (IsDeed alloc.now) blocks.old.items }
    requires fits { keep < length blocks.old.items → 64 * size.now.bytes < 2 ^ 63 }
    requires keep { keep ≤ length blocks.old.items }
    ensures cells { heap.new.cells ≡ take (64 * keep) heap.old.cells }
    ensures blocks { blocks.new.items ≡ take keep blocks.old.items }
{
    size.tell();
    while blocks.len() > keep {
        let Some(Block { place, deed }) = blocks.pop() else {
            unreachable!();
        };
        let fresh = heap.retire(place, 64);
        deallocate(alloc, fresh, 64, deed);
    }
}
