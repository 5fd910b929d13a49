//! What runs under the locks.

ghost use Rattle.std.specs.Prelude.{◌≡◌, ◌%◌, ◌<◌, ◌≤◌, true, false, IsTrue, IfOk, OnOk, OnErr, length};
ghost use Rattle.s4_types.specs.Kinds.{is_wide, range_of};
ghost use Rattle.s4_types.specs.Limits.{data_asked, data_in, is_within_limits};
ghost use Rattle.s4_types.specs.Log.{swept};
ghost use Rattle.s4_types.specs.Play.{is_no_memory, last_of};
ghost use Rattle.s4_cells.specs.Many.{Each, AllStay};
ghost use Rattle.s4_passes.specs.Changes.{KeepsCalls};
ghost use Rattle.s4_closing.specs.Kept.{AreKept};
ghost use Rattle.s4_closing.specs.Merged.{HaveWindow};
ghost use Rattle.s4_pool.specs.Serving.{Serves, Adds, AddsAndFrees, AddsToAll};

use crate::locked::Locked;
use s4_calls::{Book, Ledger, Names, are_in_order};
use s4_cells::{Cell, wide_with_copy};
use s4_drive::Answered;
use s4_passes::{Asked, Call, Pass, Receipt};
use s4_types::{Caller, Moment, NoMemory, Record, Reply, Request};
use std::alloc::AllocError;

/// Carries out an ordinary request in its cell: at the greatest of the caller's clock, the pass's
/// last moment and the cell's. The cell gains the record, and the pass the call with its receipt;
/// the cell's book and the pass's token know it at once. An `Err` comes before any change of these.
pub fn step_in_cell<N: Names>(
    held: &mut Locked<N>,
    ledger: &Ledger<Record>,
    pass: &mut Pass<N>,
    caller: Caller,
    clock: Moment,
    request: &Request,
) -> Result<Reply, NoMemory>
    requires ledger { ledger.now ≡ N.ledger }
    requires ordinary { is_wide caller request.now ≡ false }
    requires home { range_of caller request.now % N.ledger.words ≡ held.old.book.cell }
    ensures told { IfOk result (λ reply. is_no_memory reply ≡ false) }
    ensures limits { IfOk result (λ reply. IsTrue (is_within_limits caller.version reply)) }
    ensures asked { IfOk result (λ reply. data_in reply ≤ data_asked request.now) }
    ensures pass { IfOk result (λ reply. Serves pass.old pass.new caller clock request.now reply) }
    ensures cell { IfOk result (λ reply.
        Adds held.old.book.cell held.old.cell held.new.cell pass.old pass.new) }
    ensures idle { OnErr result (KeepsCalls pass.old pass.new) }
    ensures still { OnErr result (held.new.cell ≡ held.old.cell) }
    ensures number { held.new.book.cell ≡ held.old.book.cell }
{
    let Locked { cell, book } = held;
    let moment = clock.max(pass.last()).max(cell.last());
    let place = cell.next_place();
    pass.reserve()?;
    let asked = Asked {
        caller,
        clock,
        request: request.copy()?,
    };
    let Answered { reply, copy } = cell.step_with_copy(moment, caller, request)?;
    let receipt = Receipt {
        cell: book.cell(),
        place,
        moment,
        reply: copy,
    };
    pass.add(ledger, book, Call { asked, receipt });
    Ok(reply)
}

/// Carries out an ordinary request in its cell, as `step_in_cell`, and frees at most so many of the
/// values of the cell that are expired then, also where the request met want of memory.
pub fn step_and_free<N: Names>(
    held: &mut Locked<N>,
    ledger: &Ledger<Record>,
    pass: &mut Pass<N>,
    caller: Caller,
    clock: Moment,
    request: &Request,
    most: u64,
) -> Result<Reply, NoMemory>
    requires ledger { ledger.now ≡ N.ledger }
    requires ordinary { is_wide caller request.now ≡ false }
    requires home { range_of caller request.now % N.ledger.words ≡ held.old.book.cell }
    ensures told { IfOk result (λ reply. is_no_memory reply ≡ false) }
    ensures limits { IfOk result (λ reply. IsTrue (is_within_limits caller.version reply)) }
    ensures asked { IfOk result (λ reply. data_in reply ≤ data_asked request.now) }
    ensures pass { IfOk result (λ reply. Serves pass.old pass.new caller clock request.now reply) }
    ensures cell { OnOk result
        (AddsAndFrees most held.old.book.cell held.old.cell held.new.cell pass.old pass.new) }
    ensures idle { OnErr result (KeepsCalls pass.old pass.new) }
    ensures freed { OnErr result (held.new.cell ≡ swept most held.old.cell) }
{
    let told = step_in_cell(held, ledger, pass, caller, clock, request);
    held.sweep(most);
    told
}

/// Carries out a wide request in all cells, at the greatest of the caller's clock, the pass's last
/// moment and those of all cells. Each cell gains the record, and the pass the call with its
/// receipt; all books and the pass's token know it at once. An `Err` comes before any change of
/// these. It also comes where the books aren't in the order of the cells' numbers, which never
/// happens: a lock doesn't say which cell lies behind it.
pub fn step_in_all<N: Names>(
    cells: &mut [Cell],
    books: &mut [Book<N, Record>],
    ledger: &Ledger<Record>,
    pass: &mut Pass<N>,
    caller: Caller,
    clock: Moment,
    request: &Request,
) -> Result<Reply, NoMemory>
    requires some { 0 < length cells.old }
    requires all { length cells.old ≡ N.ledger.words }
    requires books { length books.old ≡ N.ledger.words }
    requires kept { AreKept books.old cells.old }
    requires window { HaveWindow N.window cells.old }
    requires ledger { ledger.now ≡ N.ledger }
    requires wide { is_wide caller request.now ≡ true }
    ensures told { IfOk result (λ reply. is_no_memory reply ≡ false) }
    ensures limits { IfOk result (λ reply. IsTrue (is_within_limits caller.version reply)) }
    ensures asked { IfOk result (λ reply. data_in reply ≤ data_asked request.now) }
    ensures pass { IfOk result (λ reply. Serves pass.old pass.new caller clock request.now reply) }
    ensures idle { OnErr result (KeepsCalls pass.old pass.new) }
    ensures cells { OnOk result (AddsToAll cells.old cells.new pass.old pass.new) }
    ensures still { OnErr result (AllStay cells.old cells.new) }
    ensures count { length cells.new ≡ length cells.old }
    ensures books { length books.new ≡ length books.old }
    ensures kept { AreKept books.new cells.new }
    ensures window { HaveWindow N.window cells.new }
{
    if !are_in_order(books) {
        return Err(AllocError);
    }
    let moment = latest(cells, clock.max(pass.last()));
    let place = cells[0].next_place();
    pass.reserve()?;
    let asked = Asked {
        caller,
        clock,
        request: request.copy()?,
    };
    let Answered { reply, copy } = wide_with_copy(cells, moment, caller, request)?;
    let receipt = Receipt {
        cell: 0,
        place,
        moment,
        reply: copy,
    };
    pass.add_wide(ledger, books, Call { asked, receipt });
    Ok(reply)
}

/// The greatest of a moment and the cells' last ones.
fn latest(cells: &[Cell], from: Moment) -> Moment
    ensures from { from ≤ result }
    ensures each { Each (λ c. last_of c.history ≤ result) cells.now }
{
    let mut moment = from;
    for cell in cells {
        moment = moment.max(cell.last());
    }
    moment
}
