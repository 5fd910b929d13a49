//! The books of cells.

ghost use Rattle.std.specs.Prelude.{◌≡◌, ◌%◌, ◌<◌, false, [], ◌∷◌, ◌++◌, length};
ghost use Rattle.s4_calls.specs.Logs.{noted};
ghost use Rattle.s4_calls.specs.Hands.{of_cell};
ghost use Rattle.s4_calls.specs.Books.{with_call_of};

use crate::hand::{Item, Tells};
use crate::ledger::{Ledger, Token};
use crate::names::Names;
use std::marker::{Model, PhantomData};

/// What stands beside a cell, and knows all items that were ever recorded there. It has no bytes but
/// the cell's number. Callers see the number and the items.
#[derive(Drop)]
pub struct Book<N: Names, T: Item> {
    pub(crate) cell: usize,
    pub(crate) token: Token<T>,
    pub(crate) of: PhantomData<N>,
}

impl<N: Names, T: Item> Model for Book<N, T> {
    ghost use Rattle.std.specs.Prelude.{◌≡◌, [], ◌∷◌};
    ghost use Rattle.s4_calls.specs.Hands.{of_cell};
    ghost use Rattle.s4_calls.specs.Books.{BookState, items_by};

    ghost Value = { BookState T };

    ghost view = { λ b. record { cell = b.cell; items = items_by b.token.hands } };

    ghost invariant = { λ b. (b.token.ledger ≡ N.ledger)
        × (b.token.hands ≡ of_cell b.cell (items_by b.token.hands) ∷ []) };
}

impl<N: Names, T: Item> Book<N, T> {
    /// The book of a cell, which has a token of its own. Takes no memory.
    pub fn new(cell: usize, token: Token<T>) -> Book<N, T>
        requires ledger { token.ledger ≡ N.ledger }
        requires hands { token.hands ≡ of_cell cell [] ∷ [] }
        ensures cell { result.cell ≡ cell }
        ensures items { result.items ≡ [] }
    {
        Book {
            cell,
            token,
            of: PhantomData,
        }
    }

    /// The cell's number.
    pub fn cell(&self) -> usize
        ensures { result ≡ self.now.cell }
    {
        self.cell
    }

    /// Notes an ordinary call of the cell: its item is recorded here, and the call by the caller's
    /// token. What tells of the item is for the proof alone.
    pub fn note<A: Tells<T>>(&mut self, ledger: &Ledger<T>, caller: &mut Token<T>, call: &A)
        requires ledger { ledger.now ≡ N.ledger }
        requires ledger_of_caller { caller.old.ledger ≡ N.ledger }
        requires caller { 0 < length caller.old.hands }
        requires ordinary { T.is_wide (A.item call.now) ≡ false }
        requires home { T.range (A.item call.now) % N.ledger.words ≡ self.old.cell }
        ensures cell { self.new.cell ≡ self.old.cell }
        ensures items { self.new.items ≡ self.old.items ++ A.item call.now ∷ [] }
        ensures calls { caller.new.hands ≡ with_call_of
            (noted self.old.cell (length self.old.items) (A.item call.now)) caller.old.hands }
        ensures ledger_of_caller { caller.new.ledger ≡ N.ledger }
    {
        let mine = ledger.take(&mut self.token);
        ledger.join(caller, mine);
        ledger.note(caller, call);
        self.token = ledger.part(caller);
    }
}
