//! Many calls: of fronts of each number of cells, with windows of all kinds; before sweeps of cells; and of
//! one pass.

use crate::fronts::check;
use crate::lines::{Call, Case, Check, End, Line, Often};
use s4_calls_for_tests::asked::{Told, What};
use std::test::Fail;

/// Numbers of cells, and windows.
const ROWS: [(usize, u64); 16] = [
    (1, 100),
    (2, 101),
    (3, 0),
    (4, 1),
    (5, 2),
    (6, 3),
    (7, 99),
    (8, 1024),
    (9, 1023),
    (10, 65535),
    (11, 65536),
    (12, 4294967295),
    (13, 4294967296),
    (14, 9223372036854775807),
    (15, 18446744073709551614),
    (16, 18446744073709551615),
];

const RANGES: &[Line] = &[Line::Often(Often::Ranges)];

const IN_RANGES: &End = &End::Closed(&[Check::Records(81)]);

#[test]
fn each_range_has_its_cell_and_each_front_is_closed(rt: HostRuntime) -> Result<(), Fail> {
    for (cells, window) in ROWS {
        println!(rt; "{cells} cells")?;
        check(&rt, rt.alloc(), (cells, window, 1), RANGES, IN_RANGES)?;
    }
    Ok(())
}

/// An object is made, and written a tick later each time; all values but the last ten expire. A front of which
/// nothing else was said frees none of them behind a request.
const KEPT: &[Line] = &[
    Line::Calls(&[Call(0, 7, 10, What::Create, Told::Made(7, 1), (10, 1, 0))]),
    Line::Often(Often::Writes(7, 11, 1000)),
    Line::Sweep(1, 2000, 990),
    Line::Sweep(1, 2000, 0),
    Line::Sweep(0, 2000, 0),
];

/// The same where each request frees one, which is as many as expire at it; then so many are written again,
/// and none is freed behind these requests.
const FREED: &[Line] = &[
    Line::FreedBehind(1),
    Line::Calls(&[Call(0, 7, 10, What::Create, Told::Made(7, 1), (10, 1, 0))]),
    Line::Often(Often::Writes(7, 11, 1000)),
    Line::Sweep(1, 2000, 0),
    Line::FreedBehind(0),
    Line::Often(Often::Writes(7, 1011, 1000)),
    Line::Sweep(1, 2000, 1000),
];

/// Principals 4 to 7 write their objects in cells 0 to 3 so often that 7, 994, no and 11 values expire. The
/// request that has them expire frees four of them.
const SWEPT: &[Line] = &[
    Line::FreedBehind(4),
    Line::Calls(&[Call(0, 4, 4000, What::Create, Told::Made(4, 1), (4000, 0, 0))]),
    Line::Often(Often::Writes(4, 4001, 7)),
    Line::Calls(&[Call(0, 5, 5000, What::Create, Told::Made(5, 1), (5000, 1, 0))]),
    Line::Often(Often::Writes(5, 5001, 994)),
    Line::Calls(&[
        Call(0, 6, 6000, What::Create, Told::Made(6, 1), (6000, 2, 0)),
        Call(0, 7, 7000, What::Create, Told::Made(7, 1), (7000, 3, 0)),
    ]),
    Line::Often(Often::Writes(7, 7001, 11)),
    Line::Calls(&[
        Call(0, 4, 9000, What::Write(4, b"a"), Told::Done, (9000, 0, 8)),
        Call(0, 5, 9000, What::Write(5, b"a"), Told::Done, (9000, 1, 995)),
        Call(0, 6, 9000, What::Write(6, b"a"), Told::Done, (9000, 2, 1)),
        Call(0, 7, 9000, What::Write(7, b"a"), Told::Done, (9000, 3, 12)),
    ]),
    Line::Sweep(0, 0, 0),
    Line::Sweep(0, 2, 2),
    Line::Sweep(3, 1, 1),
    Line::Sweep(1, 255, 255),
    Line::Sweep(2, 9, 0),
    Line::Sweep(3, 6, 6),
    Line::Sweep(3, 6, 0),
    Line::Sweep(0, u64::MAX, 1),
    Line::Sweep(0, 1, 0),
    Line::Sweep(1, 735, 735),
    Line::Sweep(1, 1, 0),
];

const CASES: [Case; 4] = [
    Case {
        name: "a front frees what is expired when it is swept",
        opened: (2, 10, 1),
        lines: KEPT,
        end: End::Open,
    },
    Case {
        name: "as many are freed behind requests as was set last",
        opened: (2, 10, 1),
        lines: FREED,
        end: End::Open,
    },
    Case {
        name: "each cell is swept of as much as is asked for",
        opened: (4, 1000, 1),
        lines: SWEPT,
        end: End::Open,
    },
    Case {
        name: "a pass makes 200000 calls in 16 cells",
        opened: (16, 100, 1),
        lines: &[Line::Often(Often::Reads(200000))],
        end: End::Closed(&[Check::Records(200000)]),
    },
];

#[test]
fn many_calls_are_made_and_swept(rt: HostRuntime) -> Result<(), Fail> {
    for case in &CASES {
        println!(rt; "{}", case.name)?;
        check(&rt, rt.alloc(), case.opened, case.lines, &case.end)?;
    }
    Ok(())
}
