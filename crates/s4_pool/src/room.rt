//! Room for the cells while they are out of their locks.

ghost use Rattle.std.specs.Prelude.{◌≡◌, ◌<◌, ◌≤◌, true, false, length, IsTrue, IfOk, OnErr, vec_len, vec_capacity};
ghost use Rattle.s4_types.specs.Kinds.{is_wide};
ghost use Rattle.s4_types.specs.Limits.{data_asked, data_in, is_within_limits};
ghost use Rattle.s4_types.specs.Play.{is_no_memory};
ghost use Rattle.s4_passes.specs.Changes.{KeepsCalls};
ghost use Rattle.s4_closing.specs.Kept.{AreKept, IsRest};
ghost use Rattle.s4_closing.specs.Merged.{HaveWindow};
ghost use Rattle.s4_pool.specs.Serving.{Serves};

use crate::locked::Locked;
use crate::locks::MOST_CELLS;
use crate::stepping::step_in_all;
use s4_calls::{Book, Ledger, Names, Token};
use s4_cells::{Cell, cut_all};
use s4_passes::Pass;
use s4_types::{Caller, Moment, NoMemory, Record, Reply, Request};
use std::alloc::Global;
use std::sync::Mutex;

/// Room for the cells and their books while they are out of their locks, made at the opening: so a wide
/// request moves them there and back without memory. Beside it lie the parts of the ledger that neither
/// a cell nor a pass has.
#[derive(Drop)]
pub struct Room<N: Names> {
    pub cells: Vec<Cell>,
    pub books: Vec<Book<N, Record>>,
    pub rest: Token<Record>,
    pub ghost no_cells: { vec_len cells ≡ 0 },
    pub ghost no_books: { vec_len books ≡ 0 },
    pub ghost cells_room: { 16 ≤ vec_capacity cells },
    pub ghost books_room: { 16 ≤ vec_capacity books },
    pub ghost ledger: { rest.ledger ≡ N.ledger },
    pub ghost left: { IsRest N.ledger.words N.passes rest.hands },
}

impl<N: Names> Room<N> {
    /// Room for 16 cells and their books.
    pub fn new(alloc: Global, rest: Token<Record>) -> Result<Room<N>, NoMemory>
        requires ledger { rest.ledger ≡ N.ledger }
        requires left { IsRest N.ledger.words N.passes rest.hands }
    {
        let cells = Vec::with_capacity(alloc, MOST_CELLS)?;
        let books = Vec::with_capacity(alloc, MOST_CELLS)?;
        Ok(Room { cells, books, rest })
    }

    /// Carries out a wide request on all cells, out of their locks, and puts them back.
    pub fn step_all(
        &mut self,
        locks: &mut Vec<Mutex<Locked<N>>>,
        ledger: &Ledger<Record>,
        pass: &mut Pass<N>,
        caller: Caller,
        clock: Moment,
        request: &Request,
    ) -> Result<Reply, NoMemory>
        requires wide { is_wide caller request.now ≡ true }
        requires some { 0 < vec_len locks.old }
        requires few { vec_len locks.old ≤ 16 }
        requires all { vec_len locks.old ≡ N.ledger.words }
        requires ledger { ledger.now ≡ N.ledger }
        ensures locks { vec_len locks.new ≡ vec_len locks.old }
        ensures told { IfOk result (λ reply. is_no_memory reply ≡ false) }
        ensures limits { IfOk result (λ reply. IsTrue (is_within_limits caller.version reply)) }
        ensures asked { IfOk result (λ reply. data_in reply ≤ data_asked request.now) }
        ensures pass { IfOk result (λ reply.
            Serves pass.old pass.new caller clock request.now reply) }
        ensures idle { OnErr result (KeepsCalls pass.old pass.new) }
    {
        let Room { cells, books, .. } = self;
        take_out(locks, cells, books);
        let told = step_in_all(
            cells.as_mut_slice(),
            books.as_mut_slice(),
            ledger,
            pass,
            caller,
            clock,
            request,
        );
        put_back(cells, books, locks);
        told
    }

    /// Cuts all cells, out of their locks, at the least of the moment and of their horizons, puts
    /// them back, and gives that moment.
    pub fn cut(&mut self, locks: &mut Vec<Mutex<Locked<N>>>, moment: Moment) -> Moment
        requires some { 0 < vec_len locks.old }
        requires few { vec_len locks.old ≤ 16 }
        ensures locks { vec_len locks.new ≡ vec_len locks.old }
        ensures bound { result ≤ moment }
    {
        let Room { cells, books, .. } = self;
        take_out(locks, cells, books);
        let at = cut_all(cells.as_mut_slice(), moment);
        put_back(cells, books, locks);
        at
    }
}

/// Moves the cells and their books out of their locks, in their order.
pub fn take_out<N: Names>(
    locks: &mut Vec<Mutex<Locked<N>>>,
    cells: &mut Vec<Cell>,
    books: &mut Vec<Book<N, Record>>,
)
    requires room { vec_len locks.old ≤ vec_capacity cells.old }
    requires room_for_books { vec_len locks.old ≤ vec_capacity books.old }
    requires empty { vec_len cells.old ≡ 0 }
    requires no_books { vec_len books.old ≡ 0 }
    ensures locks { vec_len locks.new ≡ 0 }
    ensures room_back { vec_capacity locks.new ≡ vec_capacity locks.old }
    ensures room { vec_capacity cells.new ≡ vec_capacity cells.old }
    ensures room_for_books { vec_capacity books.new ≡ vec_capacity books.old }
    ensures cells { vec_len cells.new ≡ vec_len locks.old }
    ensures books { vec_len books.new ≡ vec_len locks.old }
    ensures kept { AreKept books.new.items cells.new.items }
    ensures window { HaveWindow N.window cells.new.items }
{
    locks.reverse();
    while let Some(lock) = locks.pop() {
        let Locked { cell, book } = lock.into_inner();
        cells.push_reserved(cell);
        books.push_reserved(book);
    }
}

/// Moves the cells and their books back into locks, in their order.
pub fn put_back<N: Names>(
    cells: &mut Vec<Cell>,
    books: &mut Vec<Book<N, Record>>,
    locks: &mut Vec<Mutex<Locked<N>>>,
)
    requires room { vec_len cells.old ≤ vec_capacity locks.old }
    requires empty { vec_len locks.old ≡ 0 }
    requires even { vec_len books.old ≡ vec_len cells.old }
    requires kept { AreKept books.old.items cells.old.items }
    requires window { HaveWindow N.window cells.old.items }
    ensures cells { vec_len cells.new ≡ 0 }
    ensures books { vec_len books.new ≡ 0 }
    ensures room { vec_capacity locks.new ≡ vec_capacity locks.old }
    ensures room_back { vec_capacity cells.new ≡ vec_capacity cells.old }
    ensures room_for_books { vec_capacity books.new ≡ vec_capacity books.old }
    ensures locks { vec_len locks.new ≡ vec_len cells.old }
{
    while let (Some(cell), Some(book)) = (cells.pop(), books.pop()) {
        locks.push_reserved(Mutex::new(Locked { cell, book }));
    }
    locks.reverse();
}
