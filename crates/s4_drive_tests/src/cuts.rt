//! Cuts of a drive at its horizon, of a plain one and of one that keeps what they leave.

use crate::asked::{Asked, Told, reply, request};
use crate::counting::Counting;
use crate::drive::{Row, check_row, check_spent, fresh};
use s4_drive::Drive;
use s4_store::PlainStore;
use s4_types::Moment;
use s4_values_for_tests::{caller, object};
use std::alloc::Global;
use std::cell::Cell;
use std::process::Abort;
use std::test::Fail;

/// What is asked of a drive with a window of 10 ticks, and how many records a cut at the horizon
/// takes behind it.
const CUT: [(Row, u64); 6] = [
    (Row(5, Asked::Create, Told::Made, 0, 0), 0),
    (Row(20, Asked::Write(0, b"a"), Told::Done, 10, 64), 1),
    (Row(21, Asked::Write(0, b"bc"), Told::Done, 11, 129), 0),
    (Row(40, Asked::Write(0, b"d"), Told::Done, 30, 66), 2),
    (
        Row(41, Asked::Read(0, 2, None), Told::Data(b"dc"), 31, 66),
        0,
    ),
    (
        Row(60, Asked::Read(0, 2, None), Told::Data(b"dc"), 50, 0),
        2,
    ),
];

/// That a cut at the horizon takes so many records.
fn check_cut(rt: &impl Abort, drive: &mut Drive<Counting>, wanted: u64) {
    let horizon = drive.horizon();
    let went = drive.cut(horizon);
    assert_eq!(rt; went, wanted, "at {}", horizon.tick());
}

#[test]
fn a_cut_takes_the_records_before_the_horizon(rt: HostRuntime) -> Result<(), Fail> {
    let (alloc, reads) = (rt.alloc(), Cell::new(0));
    let mut drive = fresh(alloc, &reads, 10);
    for (row, went) in &CUT {
        check_row(&rt, alloc, &mut drive, &reads, row)?;
        check_cut(&rt, &mut drive, *went);
    }
    Ok(())
}

fn kept(alloc: Global, reads: &Cell<usize>) -> s4_kept::Drive<Counting<'_>> {
    let store = Counting {
        store: PlainStore::new(alloc),
        reads,
    };
    s4_kept::Drive::new(alloc, store, 10)
}

/// That a drive which keeps what its cuts leave answers as the row says.
fn check_kept(
    rt: &impl Abort,
    alloc: Global,
    drive: &mut s4_kept::Drive<Counting>,
    row: &Row,
) -> Result<(), Fail> {
    let (of, moment) = (object((7, 0), 1)?, Moment::new(row.0));
    let asked = request(alloc, &of, &row.1)?;
    assert!(rt; drive.plain().last() <= moment);
    let told = drive.step(moment, caller(7)?, &asked);
    assert_eq!(rt; told, reply(alloc, &of, &row.2)?, "at {}", row.0);
    check_spent(rt, drive.plain(), row)
}

/// That a cut at the horizon to the base of that moment takes so many records.
fn check_cut_to(
    rt: &impl Abort,
    drive: &mut s4_kept::Drive<Counting>,
    wanted: u64,
) -> Result<(), Fail> {
    let horizon = drive.plain().horizon();
    let base = drive.base_at(horizon)?;
    let went = drive.cut_to(horizon, base);
    assert_eq!(rt; went, wanted, "at {}", horizon.tick());
    Ok(())
}

#[test]
fn a_cut_is_made_to_a_base(rt: HostRuntime) -> Result<(), Fail> {
    let (alloc, reads) = (rt.alloc(), Cell::new(0));
    let mut drive = kept(alloc, &reads);
    for (row, went) in &CUT {
        check_kept(&rt, alloc, &mut drive, row)?;
        check_cut_to(&rt, &mut drive, *went)?;
    }
    Ok(())
}

/// That a cut at the horizon takes so many records, and that as many went then as its base tells.
fn check_cut_alone(
    rt: &impl Abort,
    drive: &mut s4_kept::Drive<Counting>,
    wanted: u64,
) -> Result<(), Fail> {
    let horizon = drive.plain().horizon();
    let went = drive.cut(horizon)?;
    assert_eq!(rt; went, wanted, "at {}", horizon.tick());
    assert_eq!(rt; drive.base().count(), drive.plain().gone());
    assert_eq!(rt; drive.base().cut(), drive.plain().cut_at());
    Ok(())
}

#[test]
fn a_drive_makes_the_base_of_its_cut(rt: HostRuntime) -> Result<(), Fail> {
    let (alloc, reads) = (rt.alloc(), Cell::new(0));
    let mut drive = kept(alloc, &reads);
    for (row, went) in &CUT {
        check_kept(&rt, alloc, &mut drive, row)?;
        check_cut_alone(&rt, &mut drive, *went)?;
        drive.sweep(u64::MAX);
    }
    assert_eq!(&rt; drive.plain().used(), 3);
    Ok(())
}
