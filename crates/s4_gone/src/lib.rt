//! What went of a list, which only proofs read. It takes no memory, and its functions do nothing at
//! run time.
#![tactic(auto)]

ghost use Rattle.std.specs.Prelude.{◌≡◌, List, [], ◌++◌, take};
ghost use Rattle.std.specs.Borrow.{ftrue};

use s4_queue::Queue;
use std::marker::{Model, PhantomData};

/// The items that went, the oldest first. A clause reads them as `items`. It has no bytes, so it
/// says nothing by itself: what holds one ties it to its own fields.
#[derive(Drop)]
pub struct Gone<T> {
    of: PhantomData<T>,
    pub ghost items: { List T },
}

impl<T> Model for Gone<T> {
    ghost also_owns = { λ _. ftrue };
}

// It owns nothing.
unsafe impl<T> Send for Gone<T> {}

unsafe impl<T> Sync for Gone<T> {}

impl<T> Gone<T> {
    /// Nothing went.
    pub fn none() -> Gone<T>
        ensures { result.items ≡ [] }
    {
        Gone { of: PhantomData }
    }

    /// The first of these go as well, so many of them.
    pub fn and_first(&self, items: &Queue<T>, count: &usize) -> Gone<T>
        ensures { result.items ≡ self.now.items ++ take count.now items.now.items }
    {
        Gone { of: PhantomData }
    }
}
