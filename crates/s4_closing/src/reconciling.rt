//! What the closing finds.

ghost use Rattle.std.specs.Prelude.{◌≡◌, ◌+◌, ◌<◌, ◌≤◌, length};
ghost use Rattle.s4_types.specs.declared.record.Record.{Record};
ghost use Rattle.s4_calls.specs.Books.{AreInOrder};
ghost use Rattle.s4_closing.specs.Kept.{AreKept, IsRest};
ghost use Rattle.s4_closing.specs.Reconciled.{Fits};

use crate::merge::{all_came, merged_history};
use crate::torn::are_whole;
use s4_calls::{Book, Ledger, Names, Token};
use s4_cells::Cell;
use s4_passes::{Pass, audit, keep_last};
use s4_types::Record;
use std::alloc::Global;

/// What is found of cells and passes.
#[derive(Drop)]
pub enum Verdict {
    /// The cells belong together: this is the one history of what is left of them.
    Whole(Vec<Record>),
    /// A cell was opened with another window, or the cells don't start alike.
    Torn,
    /// A growth was refused.
    NoMemory,
}

/// Looks at the cells of a front that was opened with this window, which stand beside these books, with
/// all of its passes. Whoever has what is left of the ledger's parts knows, with the books and the passes,
/// one log of all calls that were ever made; so no call and no record is looked at one by one.
pub fn reconcile<N: Names>(
    alloc: Global,
    window: u64,
    cells: &[Cell],
    ledger: &Ledger<Record>,
    rest: &mut Token<Record>,
    passes: &mut [Pass<N>],
    books: &mut [Book<N, Record>],
) -> Verdict
    requires some { 0 < length cells.now }
    requires ledger { ledger.now ≡ N.ledger }
    requires ledger_of_rest { rest.old.ledger ≡ N.ledger }
    requires rest { IsRest (length books.old) N.passes rest.old.hands }
    requires few { length books.old + N.passes ≤ 64 }
    requires passes { N.passes ≤ length passes.old }
    requires order { AreInOrder books.old }
    requires even { length books.old ≡ length cells.now }
    requires kept { AreKept books.old cells.now }
    ensures rest { rest.new ≡ rest.old }
    ensures passes { passes.new ≡ passes.old }
    ensures books { books.new ≡ books.old }
    ensures fits { Fits window cells.now passes.new result }
{
    audit(ledger, rest, passes, books);
    keep_last(passes);
    all_came(cells);
    if !are_whole(window, cells) {
        return Verdict::Torn;
    }
    let Ok(left) = merged_history(alloc, cells) else {
        return Verdict::NoMemory;
    };
    Verdict::Whole(left)
}
