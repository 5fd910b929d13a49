//! All cells out of their locks, for a closing.

ghost use Rattle.std.specs.Prelude.{◌≡◌, ◌<◌, ◌≤◌, length, vec_len, vec_capacity};
ghost use Rattle.s4_closing.specs.Kept.{AreKept, IsRest};
ghost use Rattle.s4_closing.specs.Merged.{HaveWindow};
ghost use Rattle.s4_closing.specs.Reconciled.{Fits};

use crate::locked::Locked;
use crate::locks::Cells;
use crate::room::{Room, put_back};
use s4_calls::{Book, Ledger, Names, Token, are_in_order};
use s4_cells::Cell;
use s4_closing::{Verdict, reconcile};
use s4_passes::Pass;
use s4_types::Record;
use std::alloc::Global;
use std::sync::Mutex;

/// The cells and their books out of their locks, with room to put them back.
#[derive(Drop)]
pub struct Unlocked<N: Names> {
    pub ledger: Ledger<Record>,
    pub locks: Vec<Mutex<Locked<N>>>,
    pub cells: Vec<Cell>,
    pub books: Vec<Book<N, Record>>,
    pub rest: Token<Record>,
    pub ghost named: { ledger ≡ N.ledger },
    pub ghost empty: { vec_len locks ≡ 0 },
    pub ghost some: { 0 < vec_len cells },
    pub ghost few: { vec_len cells ≤ 16 },
    pub ghost all: { vec_len cells ≡ N.ledger.words },
    pub ghost even: { vec_len books ≡ vec_len cells },
    pub ghost locks_room: { vec_len cells ≤ vec_capacity locks },
    pub ghost cells_room: { 16 ≤ vec_capacity cells },
    pub ghost books_room: { 16 ≤ vec_capacity books },
    pub ghost kept: { AreKept books.items cells.items },
    pub ghost window: { HaveWindow N.window cells.items },
    pub ghost of_rest: { rest.ledger ≡ N.ledger },
    pub ghost left: { IsRest N.ledger.words N.passes rest.hands },
}

impl<N: Names> Unlocked<N> {
    /// Reconciles the cells with all passes. `NoMemory` also comes where the books aren't in the order of
    /// the cells' numbers, which never happens: a lock doesn't say which cell lies behind it.
    pub fn reconcile(&mut self, alloc: Global, window: u64, passes: &mut [Pass<N>]) -> Verdict
        requires few { N.passes ≤ 32 }
        requires passes { N.passes ≤ length passes.old }
        ensures passes { passes.new ≡ passes.old }
        ensures cells { self.new.cells.items ≡ self.old.cells.items }
        ensures fits { Fits window self.new.cells.items passes.new result }
    {
        if !are_in_order(self.books.as_slice()) {
            return Verdict::NoMemory;
        }
        let Unlocked {
            ledger,
            cells,
            books,
            rest,
            ..
        } = self;
        reconcile(
            alloc,
            window,
            cells.as_slice(),
            &*ledger,
            rest,
            passes,
            books.as_mut_slice(),
        )
    }

    /// Puts the cells and their books back into locks.
    pub fn lock(self) -> Cells<N> {
        let Unlocked {
            ledger,
            mut locks,
            mut cells,
            mut books,
            rest,
        } = self;
        put_back(&mut cells, &mut books, &mut locks);
        Cells {
            ledger,
            locks,
            room: Mutex::new(Room { cells, books, rest }),
        }
    }

    /// The cells, without their locks and books.
    pub fn into_cells(self) -> Vec<Cell>
        ensures { result ≡ self.cells }
    {
        self.cells
    }
}
