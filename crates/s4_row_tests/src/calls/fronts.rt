//! The worked case of five cells and two passes. A request that met want of memory leaves no record
//! and no receipt, and a front that met it at its closing has all its cells, and is closed then.

ghost use Rattle.std.specs.Prelude.{◌≡◌};

use crate::calls::case::Case;
use crate::calls::serving::{Call, serve_all};
use crate::texts::invalid;
use s4_pool::{Blank, Cell, CloseFault, Closed, Front, Left, Names, OpenGate, Pass, Why};
use s4_types::Record;
use std::alloc::Global;
use std::io;
use std::marker::Brand;
use std::sync::Wait;

const CALLS: [Call; 7] = [
    Call(0, "5 7 create 0", "made 7.0.1", (5, 2, 0)),
    Call(1, "5 8 create 0", "made 8.0.1", (5, 3, 0)),
    Call(1, "3 0 setwindow 10", "done", (5, 0, 0)),
    Call(0, "9 7 create 0", "made 7.0.2", (9, 2, 2)),
    Call(1, "8 8 create 0", "made 8.0.2", (8, 3, 2)),
    Call(1, "6 10 create 0", "made 10.0.1", (8, 0, 1)),
    Call(0, "9 9 create 0", "made 9.0.1", (9, 4, 1)),
];

/// Of each record of the one history its moment and who asked.
const HISTORY: [(u64, u32); 7] = [(5, 7), (5, 8), (5, 0), (8, 10), (8, 8), (9, 7), (9, 9)];

/// How many records each cell has then.
const RECORDS: [usize; 5] = [2, 1, 3, 3, 2];

/// What is marked.
#[derive(Clone, Copy, PartialEq)]
pub enum Marked {
    Calls,
    Closing,
}

/// Makes the calls, and closes the front.
pub fn serve<R: Wait>(case: &mut Case, rt: &R, marked: Marked) -> io::Result<()> {
    let blank = Blank::new(case.alloc(), 5)?;
    serve_front::<Brand, R>(case, rt, marked, blank)
}

/// The same with a front of that ledger.
fn serve_front<N: Names, R: Wait>(
    case: &mut Case,
    rt: &R,
    marked: Marked,
    blank: Blank<Record>,
) -> io::Result<()>
    requires ledger { blank.ledger ≡ N.ledger }
    requires names { (N.ledger.words ≡ 5) × (N.window ≡ 100) × (N.passes ≡ 2) }
{
    let (front, mut passes) = Front::<OpenGate, N>::open(case.alloc(), 100, 5, 2, OpenGate, blank)?;
    case.is_marking = marked == Marked::Calls;
    serve_all(case, rt, &front, &mut passes, &CALLS)?;
    case.is_marking = marked == Marked::Closing;
    check_closed(case, front, passes)
}

/// Closes a front, once more where there was no memory, and looks at its records.
fn check_closed<N: Names>(
    case: &mut Case,
    front: Front<OpenGate, N>,
    passes: Vec<Pass<N>>,
) -> io::Result<()> {
    let closed = closed(case, front, passes)?;
    check_history(case, &closed.history);
    check_cells(case, &closed.cells);
    case.check(closed.passes.len() == 2, "a pass is missing");
    Ok(())
}

fn closed<N: Names>(
    case: &mut Case,
    front: Front<OpenGate, N>,
    passes: Vec<Pass<N>>,
) -> io::Result<Closed<N>> {
    let alloc = case.alloc();
    case.begins();
    let closed = front.close(alloc, passes);
    case.ends();
    match closed {
        Ok(closed) => Ok(closed),
        Err(fault) => {
            case.refuse_by_error();
            closed_again(alloc, fault)
        }
    }
}

fn closed_again<N: Names>(alloc: Global, fault: CloseFault<OpenGate, N>) -> io::Result<Closed<N>> {
    let CloseFault { why, left, passes } = fault;
    match left {
        Left::Front(front) if why == Why::NoMemory => front
            .close(alloc, passes)
            .map_err(|_fault| invalid()),
        _ => Err(invalid()),
    }
}

fn check_history(case: &mut Case, history: &[Record]) {
    case.check(
        history.len() == HISTORY.len(),
        "there are more or fewer records",
    );
    for (record, wanted) in history.iter().zip(HISTORY) {
        let told = (record.moment.tick(), record.caller.who.number());
        case.check(told == wanted, "another record");
    }
}

fn check_cells(case: &mut Case, cells: &[Cell]) {
    case.check(
        cells.len() == RECORDS.len(),
        "there are more or fewer cells",
    );
    for (cell, count) in cells.iter().zip(RECORDS) {
        let is_same = cell.history().len() == count;
        case.check(is_same, "a cell has more or fewer records");
    }
}
