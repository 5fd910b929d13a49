//! How a front is closed, and what is left of it.

use crate::gate::Holding;
use crate::lines::{Check, End};
use s4_calls_for_tests::same::same;
use s4_pool::{Cell, CloseFault, Closed, Front, Left, Names, Pass, Why};
use s4_types::Record;
use std::alloc::Global;
use std::test::Fail;

/// Closes a front, or drops it, and looks at what is left.
pub fn close<N: Names>(
    alloc: Global,
    front: Front<Holding<'_>, N>,
    passes: Vec<Pass<N>>,
    end: &End,
) -> Result<(), Fail> {
    match end {
        End::Open => {
            drop(front);
            drop(passes);
            Ok(())
        }
        End::Closed(checks) => check_all(alloc, front, passes, checks),
        End::ClosedAgain(checks) => {
            let (front, passes) = refused(alloc, front, passes)?;
            check_all(alloc, front, passes, checks)
        }
        End::Torn(records) => check_ever(&torn(alloc, front, passes)?, records),
    }
}

// Closes a front, and looks at what is left.
fn check_all<N: Names>(
    alloc: Global,
    front: Front<Holding<'_>, N>,
    passes: Vec<Pass<N>>,
    checks: &[Check],
) -> Result<(), Fail> {
    let closed = closed(alloc, front, passes)?;
    for check in checks {
        check_closed(&closed, check)?;
    }
    Ok(())
}

// A front that has to close.
fn closed<N: Names>(
    alloc: Global,
    front: Front<Holding<'_>, N>,
    passes: Vec<Pass<N>>,
) -> Result<Closed<N>, Fail> {
    match front.close(alloc, passes) {
        Ok(closed) => Ok(closed),
        Err(fault) => {
            drop(fault);
            Err("not closed".into())
        }
    }
}

// The front and its passes, where it can't be closed without the last of them.
fn refused<'a, N: Names>(
    alloc: Global,
    front: Front<Holding<'a>, N>,
    passes: Vec<Pass<N>>,
) -> Result<(Front<Holding<'a>, N>, Vec<Pass<N>>), Fail> {
    let mut passes = passes;
    let last = passes.pop().ok_or("a pass")?;
    let Err(fault) = front.close(alloc, passes) else {
        return Err("closed without a pass".into());
    };
    let CloseFault {
        why,
        left,
        mut passes,
    } = fault;
    match left {
        Left::Front(front) if why == Why::Missing => {
            passes.push(last)?;
            Ok((front, passes))
        }
        _ => Err("another fault than a missing pass".into()),
    }
}

// The cells of a front that can't be closed, since they don't start alike. All passes are handed
// back.
fn torn<N: Names>(
    alloc: Global,
    front: Front<Holding<'_>, N>,
    passes: Vec<Pass<N>>,
) -> Result<Vec<Cell>, Fail> {
    let count = passes.len();
    let Err(fault) = front.close(alloc, passes) else {
        return Err("closed with cells that don't start alike".into());
    };
    let CloseFault { why, left, passes } = fault;
    same("how many passes", &passes.len(), &count)?;
    match left {
        Left::Cells(cells) if why == Why::Torn => Ok(cells),
        _ => Err("another fault than torn cells".into()),
    }
}

fn check_closed<N: Names>(closed: &Closed<N>, check: &Check) -> Result<(), Fail> {
    match check {
        Check::Records(count) => same("how many records", &closed.history.len(), count),
        Check::History(wanted) => check_history(closed.history.as_slice(), wanted),
        Check::Gone(count) => {
            for cell in &closed.cells {
                same("how many records went", &cell.gone(), count)?;
            }
            Ok(())
        }
        Check::Ever(records) => check_ever(&closed.cells, records),
        Check::Kept(calls, last) => check_kept(closed, *calls, *last),
    }
}

fn check_history(history: &[Record], wanted: &[(u64, u32)]) -> Result<(), Fail> {
    same("how many records", &history.len(), &wanted.len())?;
    for place in 0..wanted.len() {
        let record = history.get(place).ok_or("a record")?;
        let found = (record.moment.tick(), record.caller.who.number());
        same("a record", &found, &wanted[place])?;
    }
    Ok(())
}

// That cells ever had so many records each.
fn check_ever(cells: &[Cell], records: &[u64]) -> Result<(), Fail> {
    same("how many cells", &cells.len(), &records.len())?;
    for place in 0..cells.len() {
        let wanted = records.get(place).ok_or("a cell less")?;
        same("how many records ever", &cells[place].next_place(), wanted)?;
    }
    Ok(())
}

// That some records of each cell went, and that each pass keeps so many calls, the last one of that
// moment.
fn check_kept<N: Names>(closed: &Closed<N>, calls: usize, last: u64) -> Result<(), Fail> {
    for cell in &closed.cells {
        same("whether records went", &(cell.gone() > 0), &true)?;
    }
    for pass in &closed.passes {
        same("how many calls are kept", &pass.receipts().len(), &calls)?;
        same("the last call", &pass.last().tick(), &last)?;
    }
    Ok(())
}
