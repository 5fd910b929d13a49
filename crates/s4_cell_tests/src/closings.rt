//! What a closing finds of cells that no front opened. Those of a front all have its window, so what is
//! asked here is `reconcile`, of cells with books and a ledger of their own. It can't be asked of calls
//! and records that don't match: a book has what calls noted there, and has to be what its cell has.

ghost use Rattle.std.specs.Prelude.{◌≡◌};

use s4_calls::{Blank, Book, Names};
use s4_calls_for_tests::same::same;
use s4_cells::Cell;
use s4_closing::{Verdict, reconcile};
use s4_types::Record;
use std::alloc::Global;
use std::marker::Brand;
use std::test::Fail;

/// The windows of two cells without records, and what is found of them where it is to be 100.
const ROWS: [(u64, u64, &str); 4] = [
    (100, 100, "whole"),
    (100, 50, "torn"),
    (50, 100, "torn"),
    (50, 50, "torn"),
];

// What is found of two cells with these windows.
fn found<N: Names>(
    alloc: Global,
    blank: Blank<Record>,
    first: u64,
    second: u64,
) -> Result<&'static str, Fail>
    requires ledger { blank.ledger ≡ N.ledger }
    requires names { (N.ledger.words ≡ 2) × (N.passes ≡ 0) }
{
    let Blank { ledger, mut token } = blank;
    let mut cells = Vec::new(alloc);
    cells.push(Cell::open(alloc, first)?)?;
    cells.push(Cell::open(alloc, second)?)?;
    let mut books = Vec::new(alloc);
    books.push(Book::<N, Record>::new(0, ledger.cut_cell(&mut token)))?;
    books.push(Book::<N, Record>::new(1, ledger.cut_cell(&mut token)))?;
    let mut passes = Vec::new(alloc);
    let verdict = reconcile(
        alloc,
        100,
        cells.as_slice(),
        &ledger,
        &mut token,
        passes.as_mut_slice(),
        books.as_mut_slice(),
    );
    match verdict {
        Verdict::Whole(history) if history.is_empty() => Ok("whole"),
        Verdict::Whole(_) => Ok("records"),
        Verdict::Torn => Ok("torn"),
        Verdict::NoMemory => Ok("no memory"),
    }
}

#[test]
fn cells_of_other_windows_are_torn(rt: HostRuntime) -> Result<(), Fail> {
    for (first, second, wanted) in ROWS {
        let blank = Blank::new(rt.alloc(), 2)?;
        let found = found::<Brand>(rt.alloc(), blank, first, second)?;
        same("what is found", &found, &wanted)?;
    }
    Ok(())
}
