//! Values that stay where they lie, in blocks, and are reached by raw pointers.
ghost use Rattle.std.specs.Prelude.{◌≡◌, ℕ, zero, suc, ◌+◌, ◌-◌, ◌*◌, ◌<◌, ◌≤◌, ◌^◌, List, [], ◌∷◌, ◌++◌, length, take, drop, Some, IfOk, ⊤};
ghost use Rattle.std.specs.Borrow.{sem};
ghost use Rattle.std.specs.Mem.{type_size};
ghost use Rattle.std.specs.Vec.Ownership.{FitsInBlock};
ghost use base.Fml.{ftrue};
ghost use denote.RawPtr.{Ptr, ◌+ₚ◌};
ghost use Rattle.s4_arena.specs.Cells.{look, places, run, IsFresh};
ghost use Rattle.s4_arena.specs.Ownership.{heap_owns, heap_lent, fresh_owns, deed_owns, size_is};
ghost use denote.Sharing.{said};

use std::alloc::{AllocError, Allocator};
use std::marker::{Model, PhantomData, Send, Sync};
use std::mem::{align_of, size_of};

/// Where a value lies. It owns nothing.
pub struct Place<X> {
    pub(crate) ptr: *mut X,
}

impl<X> Clone for Place<X> {
    ghost is_clone = { λ x y. y ≡ x };

    ghost is_infallible = { λ _. ⊤ };

    fn clone(&self) -> Result<Place<X>, AllocError> {
        Ok(*self)
    }
}

impl<X> Copy for Place<X> {}

unsafe impl<X> Send for Place<X> {}

unsafe impl<X> Sync for Place<X> {}

/// The owner of all values. It takes no space.
#[derive(Drop)]
pub struct Heap<X> {
    mark: PhantomData<*const X>,
    ghost cells: { List (Ptr × X) },
}

impl<X> Model for Heap<X> {
    ghost also_owns = { λ h. heap_owns X.row h.cells };

    ghost also_shares = { λ h _ κ. heap_lent X.row h.cells κ };
}

unsafe impl<X: Send> Send for Heap<X> {}

unsafe impl<X: Sync> Sync for Heap<X> {}

/// The part of a block that is not written yet.
#[derive(Drop)]
pub struct Fresh<X> {
    pub(crate) ptr: *mut X,
    ghost left: { ℕ },
}

impl<X> Model for Fresh<X> {
    ghost also_owns = { λ f. fresh_owns X.row f.ptr f.left };
}

/// The right to give the block of `len` places at `at` back to `alloc`. It takes no space.
#[derive(Drop)]
pub struct Deed<X, A: Allocator> {
    mark: PhantomData<*const (X, A)>,
    ghost at: { Ptr },
    ghost len: { ℕ },
    ghost alloc: { A },
}

impl<X, A: Allocator> Model for Deed<X, A> {
    ghost also_owns = { λ d. deed_owns X.row (A.dealloc_token d.alloc) d.at d.len };

    ghost also_shares = { λ _ _ _. ftrue };
}

unsafe impl<X, A: Allocator + Send> Send for Deed<X, A> {}

// A `&` to it holds nothing.
unsafe impl<X, A: Allocator> Sync for Deed<X, A> {}

/// Stands for the size of an `X`, which an invariant cannot name. It takes no space.
#[derive(Drop)]
pub struct Size<X> {
    mark: PhantomData<*const X>,
    ghost bytes: { ℕ },
}

impl<X> Model for Size<X> {
    ghost also_owns = { λ s. size_is X.row s.bytes };

    ghost also_shares = { λ s _ κ. said (size_is X.row s.bytes) κ };
}

unsafe impl<X> Send for Size<X> {}

unsafe impl<X> Sync for Size<X> {}

impl<X> Size<X> {
    /// The size of an `X` in bytes.
    pub fn new() -> Size<X>
        ensures { result.bytes ≡ type_size X.row }
    {
        Size { mark: PhantomData }
    }

    /// That it is the size.
    pub fn tell(&self)
        ensures { self.now.bytes ≡ type_size X.row }
    {}
}

/// Takes a block for `len` values: where it lies, its places, all of them fresh, and the right to
/// give it back. It is an error where the memory is refused.
pub fn allocate<X, A: Allocator>(
    alloc: &A,
    len: usize,
) -> Result<(Place<X>, Fresh<X>, Deed<X, A>), AllocError>
    requires { FitsInBlock X.row len }
    ensures { IfOk result (λ r. (r.1.ptr ≡ r.0.ptr) × (r.1.left ≡ len) × (r.2.at ≡ r.0.ptr) × (r.2.len ≡ len) × (r.2.alloc ≡ alloc.now)) }
{
    match alloc.allocate(len * size_of::<X>(), align_of::<X>()) {
        Ok(block) => {
            let place = Place {
                ptr: block as *mut X,
            };
            Ok((place, Fresh { ptr: place.ptr }, Deed { mark: PhantomData }))
        }
        Err(error) => Err(error),
    }
}

impl<X> Heap<X> {
    ghost use Rattle.s4_arena.specs.Lends.{lends_value};

    /// An owner without values.
    pub fn new() -> Heap<X>
        ensures { result.cells ≡ [] }
    {
        Heap { mark: PhantomData }
    }

    /// Writes `value` into the first fresh place, and hands the rest back.
    pub fn carve(&mut self, fresh: Fresh<X>, value: X) -> (Place<X>, Fresh<X>)
        requires { (0 < fresh.left) × (0 < type_size X.row) }
        ensures { (result.0.ptr ≡ fresh.ptr) × (self.new.cells ≡ self.old.cells ++ (fresh.ptr, value) ∷ [])
            × IsFresh fresh.ptr self.old.cells × (result.1.ptr ≡ fresh.ptr +ₚ type_size X.row) × (result.1.left + 1 ≡ fresh.left) }
    {
        let Fresh { ptr } = fresh;
        unsafe {
            ptr.write(value);
            (Place { ptr }, Fresh { ptr: ptr.add(1) })
        }
    }

    /// Forgets the last `len` values, which lie side by side from `place` on.
    pub fn retire(&mut self, place: Place<X>, len: usize) -> Fresh<X>
        requires { (0 < len) × (places (drop (length self.old.cells - len) self.old.cells) ≡ run (type_size X.row) place.ptr len)
            × FitsInBlock X.row len }
        ensures { (self.new.cells ≡ take (length self.old.cells - len) self.old.cells) × (result.ptr ≡ place.ptr) × (result.left ≡ len) }
    {
        Fresh { ptr: place.ptr }
    }

    /// The value at a place.
    pub fn get(&self, place: Place<X>) -> &X
        requires { (x : X) × (look self.now.cells place.ptr ≡ Some x) }
        ensures { look self.now.cells place.ptr ≡ Some result.now }
    {
        unsafe { &*place.ptr }
    }

    /// The value at a place, to be changed. The others stay as they are.
    pub fn get_mut(&mut self, place: Place<X>) -> &mut X
        requires { (x : X) × (look self.old.cells place.ptr ≡ Some x) }
        ensures* writes_back { sem 𝓛 (lends_value X.row self.entry place.ptr result) }
        ensures value { look self.old.cells place.ptr ≡ Some result.now }
    {
        unsafe { &mut *place.ptr }
    }
}

/// Gives a block back whose places are all fresh.
pub fn deallocate<X, A: Allocator>(alloc: &A, fresh: Fresh<X>, len: usize, deed: Deed<X, A>)
    requires { (fresh.left ≡ len) × (deed.at ≡ fresh.ptr) × (deed.len ≡ len) × (deed.alloc ≡ alloc.now) }
{
    let Fresh { ptr } = fresh;
    let Deed { mark: _ } = deed;
    unsafe {
        alloc.deallocate(ptr as *mut u8, len * size_of::<X>(), align_of::<X>());
    }
}
