//! What a front is opened with.

ghost use Rattle.std.specs.Prelude.{◌≡◌, ◌<◌, ◌≤◌, [], ◌∷◌, IfOk};
ghost use Rattle.s4_calls.specs.Hands.{fresh};

use crate::hand::Item;
use crate::ledger::{Ledger, Token};
use std::alloc::{AllocError, Global};

/// A ledger that no cell and no pass has a part of. The opening of a front consumes it, so no two
/// fronts have the same.
#[derive(Drop)]
pub struct Blank<T: Item> {
    pub ledger: Ledger<T>,
    pub token: Token<T>,
    pub ghost same: { token.ledger ≡ ledger },
    pub ghost whole: { token.hands ≡ fresh ledger.words ∷ [] },
}

impl<T: Item> Blank<T> {
    /// A ledger for 1 to 16 cells. `AllocError` where a growth was refused.
    pub fn new(alloc: Global, cells: usize) -> Result<Blank<T>, AllocError>
        requires some { 0 < cells }
        requires few { cells ≤ 16 }
        ensures { IfOk result (λ blank. blank.ledger.words ≡ cells) }
    {
        let (ledger, token) = Ledger::open(alloc, cells)?;
        Ok(Blank { ledger, token })
    }
}
