//! Requests to a drive over a store that counts, and what it has to answer.

use crate::asked::{Asked, Told, reply, request};
use crate::counting::Counting;
use s4_drive::{Drive, never_down};
use s4_store::PlainStore;
use s4_types::{Moment, Request, Step};
use s4_values_for_tests::{caller, object};
use std::alloc::Global;
use std::cell::Cell;
use std::process::Abort;
use std::test::Fail;

/// What principal 7 asks of its object 7.0.1 at a moment, what is answered, and what the horizon is
/// then and purse 7.0 spends.
pub struct Row(pub u64, pub Asked, pub Told, pub u64, pub u32);

/// With a window of 100 ticks an object is made, written and read.
const READ: [Row; 5] = [
    Row(5, Asked::Create, Told::Made, 0, 0),
    Row(10, Asked::Write(0, b"hello"), Told::Done, 0, 64),
    Row(11, Asked::Read(0, 100, None), Told::Data(b"hello"), 0, 64),
    Row(11, Asked::Read(0, 100, Some(9)), Told::Data(b""), 0, 64),
    Row(
        11,
        Asked::Read(0, 100, Some(10)),
        Told::Data(b"hello"),
        0,
        64,
    ),
];

/// Two writes are made, until both are expired.
const SPENT: [Row; 5] = [
    Row(5, Asked::Create, Told::Made, 0, 0),
    Row(10, Asked::Write(0, b"a"), Told::Done, 0, 64),
    Row(10, Asked::Write(0, b"b"), Told::Done, 0, 129),
    Row(109, Asked::Read(0, 1, None), Told::Data(b"b"), 9, 129),
    Row(110, Asked::Read(0, 1, None), Told::Data(b"b"), 10, 0),
];

/// A fresh drive with a window of so many ticks.
pub fn fresh(alloc: Global, reads: &Cell<usize>, window: u64) -> Drive<Counting<'_>> {
    let store = Counting {
        store: PlainStore::new(alloc),
        reads,
    };
    Drive::new(alloc, store, window)
}

/// That a drive's horizon and what the purse spends are as the row says, once it was asked.
pub fn check_spent(rt: &impl Abort, drive: &Drive<Counting>, row: &Row) -> Result<(), Fail> {
    let purse = object((7, 0), 1)?.purse;
    let told = (drive.last(), drive.horizon(), drive.spent(&purse));
    let wanted = (Moment::new(row.0), Moment::new(row.3), row.4);
    assert!(rt; told == wanted, "at {}", row.0);
    Ok(())
}

/// That a drive answers as the row says, and looks into its store for what it reads.
pub fn check_row(
    rt: &impl Abort,
    alloc: Global,
    drive: &mut Drive<Counting>,
    reads: &Cell<usize>,
    row: &Row,
) -> Result<(), Fail> {
    let (of, moment, before) = (object((7, 0), 1)?, Moment::new(row.0), reads.get());
    let asked = request(alloc, &of, &row.1)?;
    assert!(rt; drive.last() <= moment);
    let told = drive.step(moment, caller(7)?, &asked);
    assert_eq!(rt; told, reply(alloc, &of, &row.2)?, "at {}", row.0);
    let is_read = matches!(row.1, Asked::Read(..));
    assert!(rt; !is_read || reads.get() > before, "at {}", row.0);
    check_spent(rt, drive, row)
}

/// That a drive answers all rows in turn, and sees the records come.
fn check_rows(
    rt: &impl Abort,
    alloc: Global,
    drive: &mut Drive<Counting>,
    reads: &Cell<usize>,
    rows: &[Row],
) -> Result<(), Fail> {
    assert_eq!(rt; drive.last(), Moment::new(0));
    for (index, row) in rows.iter().enumerate() {
        assert_eq!(rt; drive.history().len(), index);
        check_row(rt, alloc, drive, reads, row)?;
    }
    assert_eq!(rt; drive.history().len(), rows.len());
    Ok(())
}

/// The steps of these rows, with a sweep behind each.
fn steps(alloc: Global, rows: &[Row]) -> Result<Vec<Step>, Fail> {
    let (of, caller) = (object((7, 0), 1)?, caller(7)?);
    let mut steps = Vec::new(alloc);
    for row in rows {
        steps.push(Step::Request {
            moment: Moment::new(row.0),
            caller,
            request: request(alloc, &of, &row.1)?,
        })?;
        steps.push(Step::Sweep { n: 1 })?;
    }
    Ok(steps)
}

/// That a drive which is given all rows at once answers so.
fn check_at_once(
    rt: &impl Abort,
    alloc: Global,
    drive: &mut Drive<Counting>,
    rows: &[Row],
) -> Result<(), Fail> {
    let (of, steps) = (object((7, 0), 1)?, steps(alloc, rows)?);
    assert!(rt; !never_down(Moment::new(u64::MAX), &steps));
    assert!(rt; never_down(drive.last(), &steps));
    let replies = drive.run(&steps)?;
    assert_eq!(rt; drive.history().len(), rows.len());
    assert_eq!(rt; replies.len(), rows.len());
    for (told, row) in replies.iter().zip(rows) {
        let wanted = reply(alloc, &of, &row.2)?;
        assert!(rt; *told == wanted, "at {}", row.0);
    }
    check_spent(rt, drive, rows.last().ok_or("a row")?)
}

#[test]
fn steps_are_answered(rt: HostRuntime) -> Result<(), Fail> {
    let alloc = rt.alloc();
    for rows in [&READ, &SPENT] {
        let reads = Cell::new(0);
        check_rows(&rt, alloc, &mut fresh(alloc, &reads, 100), &reads, rows)?;
        check_at_once(&rt, alloc, &mut fresh(alloc, &reads, 100), rows)?;
    }
    Ok(())
}

/// Makes the object at 1, and writes it at each moment from there up to the last.
fn write_until(
    rt: &impl Abort,
    alloc: Global,
    drive: &mut Drive<Counting>,
    last: u64,
) -> Result<(), Fail> {
    let of = object((7, 0), 1)?;
    for tick in 1..last {
        let asked = if tick == 1 {
            Asked::Create
        } else {
            Asked::Write(0, b"a")
        };
        let moment = Moment::new(tick);
        assert!(rt; drive.last() <= moment);
        drive.step(moment, caller(7)?, &request(alloc, &of, &asked)?);
    }
    Ok(())
}

/// A flush looks at no more of 200 values than it takes to find the four that end in its span.
#[test]
fn a_flush_finds_the_values_of_its_span(rt: HostRuntime) -> Result<(), Fail> {
    let (alloc, reads, last) = (rt.alloc(), Cell::new(0), 200);
    let mut drive = fresh(alloc, &reads, 1000);
    write_until(&rt, alloc, &mut drive, last)?;
    reads.set(0);
    let (moment, flush) = (
        Moment::new(last),
        Request::Flush {
            from: Moment::new(100),
            to: Moment::new(103),
        },
    );
    assert!(rt; drive.last() <= moment);
    let told = drive.step(moment, caller(0)?, &flush);
    assert_eq!(rt; told, reply(alloc, &object((7, 0), 1)?, &Told::Done)?);
    let looks = reads.get();
    assert!(rt; 0 < looks && looks <= 4 * (8 + 2), "{looks} looks");
    Ok(())
}
