//! Readers of cells.

ghost use Rattle.std.specs.Prelude.{◌≡◌, []};
ghost use Rattle.s4_calls.specs.Logs.{IsPrefix};

use crate::book::Book;
use crate::hand::Item;
use crate::ledger::{Ledger, ReaderToken};
use crate::names::Names;
use std::marker::{Model, PhantomData};

/// What knows a beginning of all that was ever recorded in a cell, for one who copies it out. It has no
/// bytes but the cell's number. Callers see the number and the items.
#[derive(Drop)]
pub struct Reader<N: Names, T: Item> {
    cell: usize,
    token: ReaderToken<T>,
    of: PhantomData<N>,
}

impl<N: Names, T: Item> Model for Reader<N, T> {
    ghost use Rattle.std.specs.Prelude.{◌≡◌, [], ◌∷◌};
    ghost use Rattle.s4_calls.specs.Hands.{of_reader};
    ghost use Rattle.s4_calls.specs.Books.{ReaderState, items_by};

    ghost Value = { ReaderState T };

    ghost view = { λ r. record { cell = r.cell; items = items_by r.token.hands } };

    ghost invariant = { λ r. (r.token.ledger ≡ N.ledger)
        × (r.token.hands ≡ of_reader r.cell (items_by r.token.hands) ∷ []) };
}

impl<N: Names, T: Item> Book<N, T> {
    /// A reader of the cell that knows nothing yet. Takes no memory.
    pub fn reader(&mut self, ledger: &Ledger<T>) -> Reader<N, T>
        requires ledger { ledger.now ≡ N.ledger }
        ensures cell { result.cell ≡ self.old.cell }
        ensures items { result.items ≡ [] }
        ensures book { self.new ≡ self.old }
    {
        let token = ledger.cut_reader(&mut self.token);
        Reader {
            cell: self.cell,
            token,
            of: PhantomData,
        }
    }
}

impl<N: Names, T: Item> Reader<N, T> {
    /// The cell's number.
    pub fn cell(&self) -> usize
        ensures { result ≡ self.now.cell }
    {
        self.cell
    }

    /// Learns all that was ever recorded in the cell, which begins with what the reader knew before.
    pub fn follow(&mut self, ledger: &Ledger<T>, book: &mut Book<N, T>)
        requires ledger { ledger.now ≡ N.ledger }
        requires cell { self.old.cell ≡ book.old.cell }
        ensures cell { self.new.cell ≡ self.old.cell }
        ensures items { self.new.items ≡ book.old.items }
        ensures known { IsPrefix self.old.items self.new.items }
        ensures book { book.new ≡ book.old }
    {
        let lent = ledger.take(&mut book.token);
        ledger.lend(&mut self.token, lent);
        ledger.follow(&mut self.token);
        book.token = ledger.give_back(&mut self.token);
    }
}
